//! Lists and boxes.
ghost use Rattle.std.specs.Prelude.{◌≡◌, codes, IfOk};

use super::bytes;
use std::alloc::Global;
use val_types::{Boxed, Bytes, List, NoMemory};

fn put_together(alloc: Global) -> Result<Bytes, NoMemory>
    ensures { IfOk result (λ list. list ≡ codes "abcdefg") }
{
    let mut list = List::from_slice(alloc, b"bcd")?;
    list.insert(0, b'a')?;
    list.push(b'e')?;
    list.append(List::from_slice(alloc, b"fg")?)?;
    Ok(list)
}

/// Whether the items stand at their places.
fn are_put_in(list: &Bytes) -> bool {
    list.as_slice() == b"abcdefg".as_slice()
        && list.len() == 7
        && list.get(6).copied() == Some(b'g')
        && list.get(7).is_none()
}

/// Whether items are taken out, from the front, the middle and the end.
fn are_taken_out(list: &mut Bytes) -> bool {
    if list.len() != 7 {
        return false;
    }
    let removed = list.remove(1);
    list.set(0, b'A');
    let popped = list.pop();
    list.truncate(3);
    let left = list.as_slice() == b"Acd".as_slice();
    list.clear();
    removed == b'b' && popped == Some(b'g') && left && list.is_empty()
}

/// The sum of the bytes in a box.
fn sum_of(boxed: Boxed<Bytes>) -> u32 {
    let mut sum = 0u32;
    for byte in &boxed.into_inner() {
        sum = sum.wrapping_add(u32::from(*byte));
    }
    sum
}

/// Whether a list goes through a vector and a box.
fn goes_through(alloc: Global) -> bool {
    let list = List::from_vec(bytes(alloc, b"abcdefg").into_vec());
    match Boxed::new(alloc, list) {
        Ok(boxed) => boxed.get().len() == 7 && sum_of(boxed) == 700,
        Err(_) => false,
    }
}

/// Whether a list that was put together is as it should be, before and behind.
fn is_put_together(found: Result<Bytes, NoMemory>) -> bool {
    match found {
        Ok(mut list) => are_put_in(&list) && are_taken_out(&mut list),
        Err(_) => false,
    }
}

#[test]
fn lists_and_boxes(rt: HostRuntime) {
    assert!(rt; is_put_together(put_together(rt.alloc())));
    assert!(rt; goes_through(rt.alloc()));
}
