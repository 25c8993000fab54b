// The field `where` of a line: the place of the option at fault with E4, E5 and E6, how many unknown options were skipped where the segment is
// read, opened from or judged, and nothing with any other refusal.
use connection::{ArriveRefusal, OpenRefusal, Opened};

pub fn of_opening(answer: Result<Opened, OpenRefusal>) -> Option<usize> {
    match answer {
        Ok(opened) => Some(opened.skipped),
        Err(OpenRefusal::Segment(why)) => why.place().map(usize::from),
        Err(OpenRefusal::ExceededLimits | OpenRefusal::NotSyn | OpenRefusal::WrongAck) => None,
    }
}

pub fn of_arrive_refusal(why: ArriveRefusal) -> Option<u8> {
    match why {
        ArriveRefusal::Segment(why) => why.place(),
        ArriveRefusal::ClockBack => None,
    }
}
