// The two rules that read the options: each passes what is left to the other. They note what they read and answer nothing, so that a call of the
// other rule is the last thing that a rule does: a Result would go through memory at each option. Header and place are passed on, since places in
// the segment are noted.
ghost use Rattle.std.specs.Prelude.{◌≡◌, ◌≤◌, ◌<◌, None, Some, cond, drop, get_or, length};
ghost use Rattle.segment.specs.Grammar.{is_broken, option_rule, padding_rule};
ghost use Rattle.segment.specs.Options.{is_wrong_length};
ghost use Rattle.segment.specs.Kinds.{kind_number};
ghost use Rattle.segment.specs.Internal.{AfterNops, Answers, Room, nops_in};

use super::Refusal;
use super::kinds::{END, Kind, NOP};
use super::notes::Notes;

// Passes NOPs from `from` on and ends the list at kind 0 or at the header's end.
#[cycle(option_rule_padding_rule)]
pub fn padding_rule(header: &[u8], from: usize, notes: &mut Notes)
    requires { Room notes.old from × (from ≤ length header.now) × (length header.now ≤ 60) }
    ensures { Answers (padding_rule from (drop from header.now)) notes.old notes.new }
{
    let at = after_nops(header, from);
    notes.steps += at - from;
    if header.len() <= at {
        return;
    }
    if header[at] == END {
        notes.steps += 1;
        return;
    }
    option_rule(header, at, notes);
}

// The first place from `from` on that has no NOP, or the header's end.
fn after_nops(header: &[u8], from: usize) -> usize
    requires { from ≤ length header.now }
    ensures { AfterNops header.now from result }
{
    from + nops(&header[from..])
}

// How many NOPs stand at the start of `left`.
fn nops(left: &[u8]) -> usize
    ensures value { result ≡ nops_in left.now }
    ensures within { result ≤ length left.now }
{
    left.iter().take_while(|octet| **octet == NOP).count()
}

// Reads one kind, length and body, and passes what is left to the padding rule: E4, E5, E6 in this order.
#[cycle(option_rule_padding_rule)]
fn option_rule(header: &[u8], at: usize, notes: &mut Notes)
    requires { Room notes.old at × (at < length header.now) × (length header.now ≤ 60) }
    ensures { Answers (option_rule at (drop at header.now)) notes.old notes.new }
{
    notes.steps += 1;
    let place = at as u8;
    let Some(n) = whole_option(&header[at..]) else {
        notes.refusal = Some(Refusal::BrokenOption(place));
        return;
    };
    let next = at + n;
    let Ok(kind) = Kind::try_from(header[at]) else {
        // Neither E5 nor E6 is given for an unknown kind.
        notes.skipped += 1;
        padding_rule(header, next, notes);
        return;
    };
    if is_wrong_length(kind, n) {
        notes.refusal = Some(Refusal::WrongOptionLength(place));
        return;
    }
    let before = notes.set_place(kind, place);
    if before.is_some() {
        notes.refusal = Some(Refusal::RepeatedOption(place));
        return;
    }
    // Where the header ends with this option, nothing is left for the padding rule.
    if next < header.len() {
        padding_rule(header, next, notes);
    }
}

// The length of the option at the start of `left`. E4 has none: no length octet, a length under 2, or one past the end.
#[tactic(auto, unfolding(crate::specs::Grammar::is_broken))]
pub fn whole_option(left: &[u8]) -> Option<usize>
    ensures { result ≡ cond (is_broken left.now) None (Some (get_or left.now 1 0)) }
{
    if left.len() < 2 || left[1] < 2 || left.len() < usize::from(left[1]) {
        return None;
    }
    Some(usize::from(left[1]))
}

// The lengths of one to four blocks.
const SACK_LENGTHS: [usize; 4] = [10, 18, 26, 34];

// E5: the kind does not have this length.
#[tactic(auto, using(crate::proofs::Membership::any_stands), unfolding(crate::specs::Options::is_wrong_length, crate::specs::Options::stands_in, crate::specs::Options::lengths_of))]
fn is_wrong_length(kind: Kind, n: usize) -> bool
    ensures { result ≡ is_wrong_length (kind_number kind) n }
{
    match kind {
        Kind::Mss => n != 4,
        Kind::WindowScale => n != 3,
        Kind::SackPermitted => n != 2,
        Kind::Sack => !SACK_LENGTHS.contains(&n),
        Kind::Timestamps => n != 10,
    }
}
