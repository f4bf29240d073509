// The records of a tape, in their order; a broken one is the last.
use tape_records::{Record, decode};

// The bytes that are not read yet.
#[derive(Drop)]
pub struct Records<'a> {
    pub rest: &'a [u8],
}

impl Iterator for Records<'_> {
    ghost use Rattle.std.specs.Iterator.{YieldsFirst, item_count};
    ghost use Rattle.tape_reader.specs.Records.{records_left};

    type Item = Record;

    ghost next_gives = { YieldsFirst records_left };

    ghost remaining = { item_count records_left };

    fn next(&mut self) -> Option<Record> {
        if self.rest.is_empty() {
            return None;
        }
        let record = decode(self.rest);
        self.rest = match record {
            Ok(whole) => &self.rest[whole.taken..],
            Err(_) => &[],
        };
        Some(record)
    }
}
