//! Bytes that are read and written in pieces, and calls that fail.
use pool_forms::{MemorySink, MemorySource, ReadFault, read_all, write_all};
use pool_types::{ByteList, PlainList};
use std::test::*;

// A read gives seven bytes at most, and a write takes ten. The calls of these numbers fail.
#[test]
fn streams_come_in_pieces(rt: HostRuntime) -> Result<(), Fail> {
    let alloc = rt.alloc();
    for (failing, read, written) in [(0u64, true, 26usize), (2, false, 10), (4, false, 26)] {
        let text = b"abcdefghijklmnopqrstuvwxyz".as_slice();
        let faults = PlainList::from_vec(vec![in alloc; failing]?);
        let bytes = ByteList::from_vec(Vec::from_slice(alloc, text)?);
        let mut source = MemorySource::new(bytes, 7, faults);
        match read_all(alloc, &mut source) {
            Ok(bytes) => {
                assert!(rt; read);
                assert_eq!(rt; bytes.as_slice(), text);
            }
            Err(fault) => {
                assert!(rt; !read);
                assert_eq!(rt; fault, ReadFault::Failed);
            }
        }
        let faults = PlainList::from_vec(vec![in alloc; failing]?);
        let mut sink = MemorySink::new(alloc, 10, faults);
        let done = write_all(&mut sink, text);
        assert_eq!(rt; done.is_ok(), written == 26);
        assert_eq!(rt; sink.taken(), &text[..written]);
    }
    Ok(())
}
