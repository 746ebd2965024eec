//! How many parts a text has.

ghost use Rattle.std.specs.Prelude.{◌≡◌, ◌==◌, ◌≤◌, count_by, length};
ghost use Rattle.osjson.specs.Reading.{parts_of};

/// The most bytes of a run. A byte can count them.
const RUN: usize = 240;

/// How many parts a text has between separators of one byte of ASCII. The empty text has none.
pub fn part_count(text: &str, separator: u8) -> usize
    ensures { result ≡ length (parts_of separator text.now) }
{
    if text.is_empty() {
        return 0;
    }
    count_of(text.as_bytes(), separator) + 1
}

// How often the byte occurs in `bytes`. It is counted run by run: a run's count is a byte, so many bytes are compared
// at once.
fn count_of(bytes: &[u8], byte: u8) -> usize
    ensures { result ≡ count_by (λ b. b == byte) bytes.now }
{
    let mut count = 0;
    let mut rest = bytes;
    while RUN < rest.len() {
        let (run, later) = rest.split_at(RUN);
        count += usize::from(count_in_run(run, byte));
        rest = later;
    }
    count + usize::from(count_in_run(rest, byte))
}

// How often the byte occurs in a run, which has at most 240 bytes.
fn count_in_run(run: &[u8], byte: u8) -> u8
    requires { length run.now ≤ 240 }
    ensures { result ≡ count_by (λ b. b == byte) run.now }
{
    let mut count = 0;
    for b in run {
        if *b == byte {
            count += 1;
        }
    }
    count
}
