// Big-endian numbers in a slice of octets, read and written at any place.

#![tactic(auto)]

ghost use Rattle.std.specs.Prelude.{◌≡◌, ℕ, ◌+◌, ◌<◌, get_or, length, set};
ghost use Rattle.std.proofs.lemmas.List.Edits.{sets};
ghost use Rattle.octets.specs.Octets.{big_endian, number_at, octets_at};

pub fn read_u8(octets: &[u8], at: usize) -> u8
    ensures { result ≡ get_or octets.now at 0 }
{
    octets.get(at).copied().unwrap_or(0)
}

pub fn write_u8(octets: &mut [u8], at: usize, n: u8)
    ensures { octets.new ≡ set octets.old at n }
{
    if at < octets.len() {
        octets[at] = n;
    }
}

// A number of several octets.
pub trait Number {
    ghost width: { ℕ };

    ghost value: { Self → ℕ };

    // An octet past the end is read as 0.
    fn read(octets: &[u8], at: usize) -> Self
        ensures { value result ≡ number_at width octets.now at };

    // The octets that lie within the slice are written; those past its end are left out.
    fn write(self, octets: &mut [u8], at: usize)
        ensures { octets.new ≡ sets octets.old at (big_endian width (value self)) };
}

// Three impls that read alike: `from_be_bytes` and `to_be_bytes` are each type's own, and no default body can name the width of `Self`.

impl Number for u16 {
    ghost width = { 2 };

    ghost value = { λ n. n };

    fn read(octets: &[u8], at: usize) -> u16 {
        u16::from_be_bytes(load(octets, at))
    }

    fn write(self, octets: &mut [u8], at: usize) {
        store(octets, at, self.to_be_bytes());
    }
}

impl Number for u32 {
    ghost width = { 4 };

    ghost value = { λ n. n };

    fn read(octets: &[u8], at: usize) -> u32 {
        u32::from_be_bytes(load(octets, at))
    }

    fn write(self, octets: &mut [u8], at: usize) {
        store(octets, at, self.to_be_bytes());
    }
}

impl Number for u64 {
    ghost width = { 8 };

    ghost value = { λ n. n };

    fn read(octets: &[u8], at: usize) -> u64 {
        u64::from_be_bytes(load(octets, at))
    }

    fn write(self, octets: &mut [u8], at: usize) {
        store(octets, at, self.to_be_bytes());
    }
}

// That all octets of a number lie within is asked once and before any of them, so that the compiler makes one load or store.

fn load<const N: usize>(octets: &[u8], at: usize) -> [u8; N]
    ensures { result ≡ octets_at N octets.now at }
{
    if octets.len() < N || octets.len() - N < at {
        return cut(octets, at);
    }
    let mut number = [0; N];
    number.copy_from_slice(&octets[at..at + N]);
    number
}

// The octets up to the end, and octets 0 after them. It stays a call, so that the usual load is small where the compiler puts it.
#[cold]
#[inline(never)]
fn cut<const N: usize>(octets: &[u8], at: usize) -> [u8; N]
    requires { length octets.now < at + N }
    ensures { result ≡ octets_at N octets.now at }
{
    let mut number = [0; N];
    if at < octets.len() {
        number[..octets.len() - at].copy_from_slice(&octets[at..]);
    }
    number
}

fn store<const N: usize>(octets: &mut [u8], at: usize, number: [u8; N])
    ensures { octets.new ≡ sets octets.old at number.entry }
{
    let Some(room) = octets.len().checked_sub(at) else {
        return;
    };
    if N <= room {
        octets[at..at + N].copy_from_slice(&number);
    } else {
        octets[at..].copy_from_slice(&number[..room]);
    }
}
