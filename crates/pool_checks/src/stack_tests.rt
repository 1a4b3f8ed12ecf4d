//! Stacks that are handed out again and again: one stack to one party, and three to eight parties on threads.
ghost use Rattle.std.specs.Prelude.{◌≡◌, true};
ghost use Rattle.pool_run.specs.Built.{is_built};

use pool_pages::MemoryPages;
use pool_run::{Command, Input, Party, Refusal, Reply, run_schedule};
use pool_slots::AllocError as Cause;
use pool_types::{Offered, PageSize, PlainList, PoolingAllocationConfig, Tunables};
use pool_workers::run_threads;
use std::alloc::{AllocError, Global};
use std::test::*;

// How many commands a round has.
const ROUND: usize = 5;

// The place of the six bytes that a round reads. Of a stack of 4096 bytes they are the last.
const AT: u64 = 4090;

fn read(of: usize) -> Command {
    Command::Read {
        of,
        memory: 0,
        at: AT,
        len: 6,
    }
}

// A round asks for a stack, reads six bytes, sets the first four of them, reads all again, and gives the stack back.
fn push_round(list: &mut Vec<Command>, byte: u8) -> Result<(), AllocError> {
    let of = list.len();
    list.push(Command::Stack)?;
    list.push(read(of))?;
    list.push(Command::Fill {
        of,
        memory: 0,
        at: AT,
        len: 4,
        byte,
    })?;
    list.push(read(of))?;
    list.push(Command::Drop { of })?;
    Ok(())
}

// A party with so many rounds, of which the first sets bytes to this one, and each other one to what is `more` than in the round before.
fn party(alloc: Global, home: u64, count: u32, first: u8, more: u8) -> Result<Party, AllocError> {
    let mut commands = Vec::new(alloc);
    let mut byte = first;
    for _ in 0..count {
        push_round(&mut commands, byte)?;
        byte = byte.wrapping_add(more);
    }
    Ok(Party {
        home,
        limits: None,
        gc_faults: PlainList::new(alloc),
        heap_faults: PlainList::new(alloc),
        commands: PlainList::from_vec(commands),
    })
}

// An input without modules, over so many stacks.
fn input(alloc: Global, stacks: u32, zeroing: bool, parties: Vec<Party>) -> Input
    ensures { is_built result ≡ true }
{
    let mut config = PoolingAllocationConfig::default();
    config.limits.total_stacks = stacks;
    config.stack_size = 128;
    config.async_stack_zeroing = zeroing;
    Input {
        page: 4096,
        shards: 1,
        config,
        tunables: Tunables::default(),
        offered: Offered::default(),
        modules: PlainList::new(alloc),
        parties: PlainList::from_vec(parties),
        schedule: PlainList::new(alloc),
        finish: true,
        faults: PlainList::new(alloc),
    }
}

// Whether a read found this byte in the first four places, and zeros behind them.
fn is_read(reply: &Reply, byte: u8) -> bool {
    match reply {
        Reply::Bytes(bytes) => {
            let got = bytes.as_slice();
            got.len() == 6 && got[0] == byte && got[3] == byte && got[4] == 0 && got[5] == 0
        }
        _ => false,
    }
}

// Whether the replies to a round are those with a stack that had `found` in it.
fn is_round(replies: &[Reply], found: u8, byte: u8) -> bool {
    match replies {
        [granted, before, done, after, returned] => {
            matches!(granted, Reply::Stack(_))
                && is_read(before, found)
                && matches!(done, Reply::Done)
                && is_read(after, byte)
                && matches!(returned, Reply::Returned)
        }
        _ => false,
    }
}

// Whether the replies to a round are those to a request that there was no room for.
fn is_refused(replies: &[Reply]) -> bool {
    match replies {
        [refused, rest @ ..] => {
            matches!(refused, Reply::Refused(Refusal::Alloc(Cause::Limit(_))))
                && rest.iter().all(|reply| matches!(reply, Reply::Refused(Refusal::NoSuchGrant)))
        }
        _ => false,
    }
}

// The only stack is asked for and given back 255 times, with another byte each time.
#[test]
fn rounds_of_one_stack(rt: HostRuntime) -> Result<(), Fail> {
    let alloc = rt.alloc();
    let page = PageSize::new(4096)?;
    for zeroing in [true, false] {
        let parties = vec![in alloc; party(alloc, 0, 255, 1, 1)?]?;
        let input = input(alloc, 1, zeroing, parties);
        let output = run_schedule(alloc, &input, &mut MemoryPages::new(page))?;
        let replies = output.replies.as_slice();
        assert_eq!(rt; replies.len(), 1);
        let mut byte: u8 = 0;
        for round in replies[0].as_slice().chunks(ROUND) {
            let found = if zeroing { 0 } else { byte };
            byte = byte.wrapping_add(1);
            assert!(rt; is_round(round, found, byte));
        }
        assert_eq!(rt; byte, 255);
        assert_eq!(rt; output.calls.decommit, if zeroing { 255 } else { 0 });
    }
    Ok(())
}

// Eight parties with 25 rounds each. The first sets bytes to 1, the next to 2, and so on.
fn eight(alloc: Global) -> Result<Vec<Party>, AllocError> {
    let mut parties = Vec::with_capacity(alloc, 8)?;
    for byte in 1..9u8 {
        parties.push(party(alloc, byte as u64, 25, byte, 0)?)?;
    }
    Ok(parties)
}

#[test]
fn eight_parties_share_three_stacks(rt: HostRuntime) -> Result<(), Fail> {
    let alloc = rt.alloc();
    let page = PageSize::new(4096)?;
    let input = input(alloc, 3, true, eight(alloc)?);
    for _ in 0..20 {
        let output = run_threads(&rt, alloc, &input, &mut MemoryPages::new(page))?;
        let replies = output.replies.as_slice();
        assert_eq!(rt; replies.len(), 8);
        for at in 0..replies.len() {
            let told = replies[at].as_slice();
            assert_eq!(rt; told.len(), 125);
            let byte = (at as u8).wrapping_add(1);
            for round in told.chunks(ROUND) {
                assert!(rt; is_round(round, 0, byte) || is_refused(round));
            }
        }
    }
    Ok(())
}
