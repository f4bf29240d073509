// What a call said, beside the record that it was handed.
use answers::AsByte;
use list_lines::said::{Said, answer};
use machine_types::{After, Refusal};

pub fn kept<R>(next: R, answer: Said) -> After<R, Said> {
    After { answer, next }
}

pub fn told<R, T: AsByte>(after: After<R, Result<T, Refusal>>) -> After<R, Said> {
    kept(after.next, answer(after.answer))
}
