//! Edits of a part of a vector, each by one call on that part. None takes memory.
ghost use Rattle.std.specs.Prelude.{◌≡◌, ◌+◌, ◌≤◌, length, vec_capacity};
ghost use Rattle.pool_pages.specs.Contents.{put, put_all};

/// Sets `count` marks from `from` on.
pub(crate) fn set_marks(marks: &mut Vec<bool>, from: usize, count: usize, value: bool)
    requires { from + count ≤ length marks.old.items }
    ensures { marks.new.items ≡ put_all from count value marks.old.items }
{
    let range = &mut marks[from..from + count];
    range.fill(value);
}

/// Sets `count` bytes from `from` on to one value.
pub(crate) fn fill_range(bytes: &mut Vec<u8>, from: usize, count: usize, value: u8)
    requires { from + count ≤ length bytes.old.items }
    ensures items { bytes.new.items ≡ put_all from count value bytes.old.items }
    ensures capacity { vec_capacity bytes.new ≡ vec_capacity bytes.old }
{
    let range = &mut bytes[from..from + count];
    range.fill(value);
}

/// Copies `new` over the bytes from `from` on.
pub(crate) fn overwrite(bytes: &mut Vec<u8>, from: usize, new: &[u8])
    requires { from + length new.now ≤ length bytes.old.items }
    ensures items { bytes.new.items ≡ put from new.now bytes.old.items }
    ensures capacity { vec_capacity bytes.new ≡ vec_capacity bytes.old }
{
    let range = &mut bytes[from..from + new.len()];
    range.copy_from_slice(new);
}
