// An option found by its kind.
ghost use Rattle.std.specs.Prelude.{◌≡◌, drop};
ghost use Rattle.segment.specs.Grammar.{padding_rule};
ghost use Rattle.segment.specs.Options.{option_in};
ghost use Rattle.segment.specs.Internal.{Reaches, is_listed};
ghost use Rattle.segment.specs.Part.{IsPart};
ghost use Rattle.segment.specs.Reading.{matching};

use super::FIXED_HEADER;
use super::kinds::{END, NOP};
use super::rules::whole_option;

// The first option of a header whose kind stands in `kinds`, or an empty part.
pub fn first_listed<'a>(header: &'a [u8], kinds: &[u8]) -> &'a [u8]
    ensures { IsPart result header.entry.ref_ptr (option_in (matching kinds.now) (padding_rule 20 (drop 20 header.now))) }
{
    // By a place, since what is found is that part of the header.
    let mut at = FIXED_HEADER;
    while let Some(n) = step_octets(header, at) {
        if is_listed(kinds, header[at]) {
            return &header[at..at + n];
        }
        at += n;
    }
    &header[0..0]
}

// How many octets the step at a place has, or none where the list ends there or the option is broken.
fn step_octets(header: &[u8], at: usize) -> Option<usize>
    ensures { Reaches header.now at result }
{
    if header.len() <= at || header[at] == END {
        return None;
    }
    if header[at] == NOP {
        return Some(1);
    }
    whole_option(&header[at..])
}

// The least kind that is looked for: 0 and 1 have no length octet.
const LEAST_LISTED: u8 = 2;

// Whether `kinds` asks for an option of this kind: 0 and 1 in it match nothing.
fn is_listed(kinds: &[u8], kind: u8) -> bool
    ensures { result ≡ is_listed kinds.now kind }
{
    LEAST_LISTED <= kind && kinds.contains(&kind)
}
