// The runs of a block's text, written out piece by piece.
ghost use Rattle.std.specs.Prelude.{◌≡◌, ◌≢◌, ◌==◌, ◌<◌, ◌≤◌, ◌+◌, ◌-◌, ◌++◌, ℕ, List, length, take, drop, [], true, false, if◌then◌else◌};
ghost use Rattle.bzip2_reader.specs.Runs.{IsSettled, left, written, written_from};

/// How many equal bytes a count follows: it tells how many more of them there are.
const RUN: u8 = 4;

/// How far the runs of a text were written out.
#[derive(Clone, Copy, Drop)]
pub(crate) struct Runs {
    /// How many bytes of the text were taken.
    at: usize,
    /// The last byte of the text that is no count, how many equal ones end with it, and how many more of it are still
    /// to be written.
    last: u8,
    same: u8,
    owed: u8,
}

/// How far the bytes before a count reach, which byte is the last of them, and how many equal ones end with it.
#[derive(Clone, Copy, Drop)]
struct Stretch {
    end: usize,
    last: u8,
    same: u8,
}

/// Returns how many equal bytes end with this one, which follows so many equal ones.
#[inline(always)]
fn same_after(byte: u8, last: u8, same: u8) -> u8
    requires { same < 4 }
    ensures { result ≡ (if byte == last then same + 1 else 1) }
{
    if byte == last { same + 1 } else { 1 }
}

/// Returns the bytes from one place on that stand before a count, and before another place.
fn stretch_at(text: &[u8], from: usize, to: usize, last: u8, same: u8) -> Stretch
    requires places { (from < to) × (to ≤ length text.now) }
    requires same { same < 4 }
    ensures within { (from < result.end) × (result.end ≤ to) }
    ensures few { result.same ≤ 4 }
    ensures written { written_from last same (drop from text.now)
        ≡ take (result.end - from) (drop from text.now)
        ++ written_from result.last result.same (drop result.end text.now) }
{
    let mut far = Stretch {
        end: from,
        last,
        same,
    };
    while far.end < to && far.same < RUN {
        let byte = text[far.end];
        far.same = same_after(byte, far.last, far.same);
        far.last = byte;
        far.end += 1;
    }
    far
}

impl Runs {
    /// Before the first byte.
    pub(crate) fn new() -> Runs
        ensures left { (text : List ℕ) → left text result ≡ written text }
        ensures settled { (text : List ℕ) → IsSettled text result }
    {
        Runs {
            at: 0,
            last: 0,
            same: 0,
            owed: 0,
        }
    }

    /// Whether nothing is left to write.
    pub(crate) fn is_done(&self, text: &[u8]) -> bool
        ensures yes { result ≡ true → left text.now self.now ≡ [] }
        ensures no { result ≡ false → IsSettled text.now self.now → left text.now self.now ≢ [] }
    {
        if self.owed > 0 {
            return false;
        }
        if self.at < text.len() {
            return false;
        }
        true
    }

    /// Writes bytes of a run, as many as are left of it and as there is room for.
    fn repeat(&mut self, out: &mut [u8]) -> usize
        ensures bound { result ≤ length out.new }
        ensures written { (text : List ℕ) → left text self.old ≡ take result out.new ++ left text self.new }
        ensures settled { (text : List ℕ) → IsSettled text self.old → IsSettled text self.new }
        ensures some { 0 < self.old.owed → 0 < length out.new → 0 < result }
    {
        let count = out.len().min(self.owed as usize);
        out[..count].fill(self.last);
        self.owed -= count as u8;
        count
    }

    /// Copies the bytes before the next count, as many as there is room for, and takes the count.
    fn copy(&mut self, text: &[u8], out: &mut [u8]) -> usize
        requires more { (self.old.at < length text.now) × (0 < length out.old) }
        requires settled { IsSettled text.now self.old }
        requires owed { self.old.owed ≡ 0 }
        ensures bound { (0 < result) × (result ≤ length out.new) }
        ensures settled { IsSettled text.now self.new }
        ensures written { left text.now self.old ≡ take result out.new ++ left text.now self.new }
    {
        let from = self.at;
        let room = out.len().min(text.len() - from);
        let stretch = stretch_at(text, from, from + room, self.last, self.same);
        let count = stretch.end - from;
        out[..count].copy_from_slice(&text[from..stretch.end]);
        self.at = stretch.end;
        self.last = stretch.last;
        self.same = stretch.same;
        if self.same == RUN && self.at < text.len() {
            self.owed = text[self.at];
            self.at += 1;
            self.same = 0;
        }
        count
    }

    /// Writes some of what is left, if there is room; nothing only at the end.
    fn write_some(&mut self, text: &[u8], out: &mut [u8]) -> usize
        requires room { 0 < length out.old }
        requires settled { IsSettled text.now self.old }
        ensures bound { result ≤ length out.new }
        ensures settled { IsSettled text.now self.new }
        ensures written { left text.now self.old ≡ take result out.new ++ left text.now self.new }
        ensures ends { result ≡ 0 → left text.now self.new ≡ [] }
    {
        if self.owed > 0 {
            return self.repeat(out);
        }
        if self.at < text.len() {
            return self.copy(text, out);
        }
        0
    }

    /// Writes what is left, or as much of it as there is room for.
    pub(crate) fn write(&mut self, text: &[u8], out: &mut [u8]) -> usize
        requires { IsSettled text.now self.old }
        ensures bound { result ≤ length out.new }
        ensures settled { IsSettled text.now self.new }
        ensures written { left text.now self.old ≡ take result out.new ++ left text.now self.new }
        ensures ends { result < length out.new → left text.now self.new ≡ [] }
    {
        let mut done = 0;
        while done < out.len() {
            let count = self.write_some(text, &mut out[done..]);
            if count == 0 {
                return done;
            }
            done += count;
        }
        done
    }
}
