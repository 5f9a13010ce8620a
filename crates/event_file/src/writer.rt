// Writing into a lent buffer: words and numbers, one behind the other. (`write!` and `Display` would do it through a
// `fmt::Write`, and no clause of theirs says that a write succeeds, nor what stands in the buffer when it fails. What `say`
// and `say_last` promise, `Writes`, says each byte for every buffer.)
ghost use Rattle.std.specs.Prelude.{◌≡◌, ◌+◌, ◌/◌, ◌≤◌, ◌<◌, [], ◌∷◌, length};
ghost use Rattle.event_file.specs.Text.{digit, decimal_of};
ghost use Rattle.event_file.specs.Buffers.{Put};

// A buffer, and the place in it where the next bytes go. Bytes that have no room behind it are left out.
#[derive(Drop)]
pub(crate) struct Writer<'a> {
    pub buf: &'a mut [u8],
    pub at: usize,
    ghost within: { at ≤ length buf.now },
}

impl Writer<'_> {
    ghost use Rattle.event_file.specs.Writer.{Adds};

    #[tactic(auto, unfolding(crate::specs::Buffers::written))]
    pub fn text(&mut self, text: &[u8])
        ensures { Adds (length text.now) text.now self.old self.new }
    {
        if self.buf.len() - self.at < text.len() {
            return;
        }
        let end = self.at + text.len();
        self.buf[self.at..end].copy_from_slice(text);
        self.at = end;
    }

    // A number in decimal. (One digit, as most slots and priorities have, asks for no call.)
    pub fn number(&mut self, n: u64)
        ensures { Adds 20 (decimal_of n) self.old self.new }
    {
        if n < 10 {
            return self.text(&[b'0' + n as u8]);
        }
        self.at = digits(n, self.buf, self.at);
    }
}

// Bytes at a place of a buffer, if they have room there, and the place behind them.
fn put(text: &[u8], buf: &mut [u8], at: usize) -> usize
    requires { at ≤ length buf.old }
    ensures put { at + length text.now ≤ length buf.old → Put text.now at buf.old buf.new result }
    ensures within { result ≤ length buf.old }
{
    let mut to = Writer { buf, at };
    to.text(text);
    to.at
}

// The last two digits of a number.
fn two(n: u64, buf: &mut [u8], at: usize) -> usize
    requires { at ≤ length buf.old }
    ensures put { at + 2 ≤ length buf.old → Put (digit (n / 10) ∷ (digit n ∷ [])) at buf.old buf.new result }
    ensures within { result ≤ length buf.old }
{
    let last = (n % 100) as u8;
    put(&[b'0' + last / 10, b'0' + last % 10], buf, at)
}

// The last four.
fn four(n: u64, buf: &mut [u8], at: usize) -> usize
    requires { at ≤ length buf.old }
    ensures put { at + 4 ≤ length buf.old → Put (digit (n / 1000) ∷ (digit (n / 100) ∷ (digit (n / 10) ∷ (digit n ∷ [])))) at buf.old buf.new result }
    ensures within { result ≤ length buf.old }
{
    let last = n % 10_000;
    let behind = two(last / 100, buf, at);
    two(last, buf, behind)
}

// The digits of a number that has no more than four.
fn short(n: u64, buf: &mut [u8], at: usize) -> usize
    requires { (at ≤ length buf.old) × (n < 10000) }
    ensures put { at + length (decimal_of n) ≤ length buf.old → Put (decimal_of n) at buf.old buf.new result }
    ensures within { result ≤ length buf.old }
{
    if n < 10 {
        return put(&[b'0' + n as u8], buf, at);
    }
    if n < 100 {
        return two(n, buf, at);
    }
    if n < 1000 {
        let behind = put(&[b'0' + (n / 100) as u8], buf, at);
        return two(n, buf, behind);
    }
    four(n, buf, at)
}

// The digits of a number, four at a time. It takes a place and answers one, and takes no writer: one that is lent to a function that
// calls itself stays in memory, and is read again for each piece. (Up to eight digits it does not call itself.)
fn digits(n: u64, buf: &mut [u8], at: usize) -> usize
    requires { at ≤ length buf.old }
    ensures put { at + length (decimal_of n) ≤ length buf.old → Put (decimal_of n) at buf.old buf.new result }
    ensures within { result ≤ length buf.old }
{
    if n < 10_000 {
        return short(n, buf, at);
    }
    if n < 100_000_000 {
        let behind = short(n / 10_000, buf, at);
        return four(n, buf, behind);
    }
    let behind = digits(n / 10_000, buf, at);
    four(n, buf, behind)
}
