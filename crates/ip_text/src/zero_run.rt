//! The longest run of zeros of eight groups.

ghost use Rattle.std.specs.Prelude.{◌≡◌, ℕ, ◌+◌, ◌<◌, ◌≤◌, [], ◌∷◌, slice_index_or};
ghost use Rattle.std.specs.Net.Text.{longest_zero_run};
ghost use Rattle.ip_text.specs.Digits.{groups_of};
ghost use Rattle.ip_text.specs.ZeroRuns.{IsZeroRunOf, bit};
ghost use Rattle.ip_text.specs.declared.zero_run.ZeroRun.{ZeroRun};

/// Where a run begins, and its length.
#[derive(Clone, Copy)]
pub(crate) struct ZeroRun {
    pub(crate) start: u8,
    pub(crate) len: u8,
}

/// The longest run of zeros, the first of equal ones.
fn find_run(groups: &[u16; 8]) -> ZeroRun
    ensures run { (longest_zero_run groups.now).0 ≡ result.start }
    ensures len { (longest_zero_run groups.now).1 ≡ result.len }
    ensures within { result.start + result.len ≤ 8 }
{
    let mut start = 8;
    let mut len = 0;
    let mut zeros = 0;
    let mut i = 8usize;
    while i > 0 {
        i -= 1;
        if groups[i] == 0 {
            zeros += 1;
        } else {
            zeros = 0;
        }
        if zeros >= len {
            start = i as u8;
            len = zeros;
        }
    }
    ZeroRun { start, len }
}

/// The longest run of zeros of each eight groups that are 0 or 1.
#[derive(Drop)]
pub(crate) struct ZeroRuns {
    runs: [ZeroRun; 256],
    ghost runs_of_masks: { (k : ℕ) → k < 256 → (d : ZeroRun) → IsZeroRunOf k (slice_index_or runs k d) },
}

/// The bits of a mask, the highest first.
fn bits_of(mask: u8) -> [u16; 8]
    ensures { result ≡ groups_of 2 8 mask }
{
    [
        (mask / 128 % 2) as u16,
        (mask / 64 % 2) as u16,
        (mask / 32 % 2) as u16,
        (mask / 16 % 2) as u16,
        (mask / 8 % 2) as u16,
        (mask / 4 % 2) as u16,
        (mask / 2 % 2) as u16,
        (mask % 2) as u16,
    ]
}

/// The run of a mask.
fn run_of(mask: u8) -> ZeroRun
    ensures { IsZeroRunOf mask result }
{
    let bits = bits_of(mask);
    find_run(&bits)
}

/// 0 for 0, and 1 for any other group.
#[inline(always)]
fn bit_of(group: u16) -> u8
    ensures { result ≡ bit group }
{
    if group == 0 { 0 } else { 1 }
}

/// One bit for each group that is not 0.
#[inline(always)]
fn mask_of(a: u16, b: u16, c: u16, d: u16, e: u16, f: u16, g: u16, h: u16) -> u8
    ensures { longest_zero_run (groups_of 2 8 result) ≡ longest_zero_run (a ∷ b ∷ c ∷ d ∷ e ∷ f ∷ g ∷ h ∷ []) }
{
    bit_of(a) * 128
        + bit_of(b) * 64
        + bit_of(c) * 32
        + bit_of(d) * 16
        + bit_of(e) * 8
        + bit_of(f) * 4
        + bit_of(g) * 2
        + bit_of(h)
}

impl ZeroRuns {
    pub(crate) fn new() -> ZeroRuns {
        let mut runs = [run_of(0); 256];
        for i in 0..256 {
            runs[i] = run_of(i as u8);
        }
        ZeroRuns { runs }
    }

    /// The longest run of zeros, the first of equal ones.
    #[inline(always)]
    pub(crate) fn longest(&self, groups: &[u16; 8]) -> ZeroRun
        ensures start { (longest_zero_run groups.now).0 ≡ result.start }
        ensures len { (longest_zero_run groups.now).1 ≡ result.len }
        ensures within { result.start + result.len ≤ 8 }
    {
        let mask = mask_of(
            groups[0], groups[1], groups[2], groups[3], groups[4], groups[5], groups[6], groups[7],
        );
        self.runs[mask as usize]
    }
}
