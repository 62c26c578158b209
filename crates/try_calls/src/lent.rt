// What is lent of a buffer or a list, and how much of it a call writes.
use refusal::Refused;

// The part of a buffer that is lent.
pub(crate) fn lent<T>(buffer: &mut [T], room: Option<usize>) -> &mut [T] {
    let all = buffer.len();
    let room = room.unwrap_or(all).min(all);
    &mut buffer[..room]
}

// The part of a list that is only read.
pub(crate) fn read<T>(list: &[T], count: Option<usize>) -> &[T] {
    let all = list.len();
    let count = count.unwrap_or(all).min(all);
    &list[..count]
}

// How much of a buffer an accepted call writes; a refused one writes none of it.
pub(crate) fn written<T>(told: &Result<T, Refused>, accepted: usize) -> usize {
    if told.is_ok() { accepted } else { 0 }
}
