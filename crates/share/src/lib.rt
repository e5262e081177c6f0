// The share-out of an amount over claims in line.
#![tactic(auto)]

ghost use Rattle.std.specs.Prelude.{◌≡◌, ℕ, ◌*◌, ◌/◌, ◌≤◌, true, map, length, is_ok, sum};
ghost use Rattle.share.specs.Shares.{measured, floors, extra, topped, share_answer, after_share, Fair};

use market::limits::MOST_SIZE;
use market::refusal::Refusal;

// A record that wants contracts and stands in line.
pub trait Claim {
    ghost wanted: { Self → ℕ };

    ghost standing: { Self → ℕ };

    fn size(&self) -> u32
        ensures { result ≡ wanted self.now };

    // Its place number, which rises along the line.
    fn place(&self) -> u32
        ensures { result ≡ standing self.now };
}

// The most claims that share.
pub const MOST_CLAIMS: usize = 128;

// The contracts wanted in all, where the claims are within their limits.
fn measure<C: Claim>(claims: &[C]) -> Option<u32>
    ensures { result ≡ measured (map C.wanted claims.now) (map C.standing claims.now) }
{
    if claims.len() > MOST_CLAIMS {
        return None;
    }
    // By hand: an iterator that stops at the first claim outside its limits, and carries two numbers, is no plainer.
    let mut total: u32 = 0;
    let mut low: u64 = 0;
    for claim in claims {
        let size = claim.size();
        let place = u64::from(claim.place());
        let in_line = size <= MOST_SIZE && low <= place;
        if !in_line {
            return None;
        }
        total += size;
        low = place + 1;
    }
    Some(total)
}

// One contract more for a claim that has less than its size, while some are left.
fn one_more(left: u32, floor: u32, size: u32) -> u32
    ensures { result ≡ extra left floor size }
{
    u32::from(left > 0 && floor < size)
}

// An amount out of what the claims want in all.
#[derive(Clone, Copy)]
struct Rate {
    amount: u32,
    total: u32,
    ghost within: { amount ≤ total },
}

impl Rate {
    // A claim's part of the amount, rounded down.
    fn part(self, size: u32) -> u32
        ensures { result ≡ self.amount * size / self.total }
    {
        if self.total == 0 {
            return 0;
        }
        // By hand: the part is at most the size, as `within` says; `try_from` tests the type's limit, which is wider.
        (u64::from(self.amount) * u64::from(size) / u64::from(self.total)) as u32
    }

    // What the parts come to.
    fn rounded<C: Claim>(self, claims: &[C]) -> u32
        requires { self.total ≡ sum (map C.wanted claims.now) }
        ensures { result ≡ sum (floors self.amount self.total (map C.wanted claims.now)) }
    {
        claims.iter().map(|claim| self.part(claim.size())).sum()
    }

    // Writes each claim's share, where `left` contracts are left over by the parts.
    fn fill<C: Claim>(self, left: u32, claims: &[C], out: &mut [u32])
        requires { length out.old ≡ length claims.now }
        ensures { out.new ≡ topped left self.amount self.total (map C.wanted claims.now) }
    {
        let mut rest = left;
        // By index: what is written through the `iter_mut` of a `zip` is not known afterwards.
        for (i, claim) in claims.iter().enumerate() {
            let size = claim.size();
            let floor = self.part(size);
            let more = one_more(rest, floor, size);
            out[i] = floor + more;
            rest -= more;
        }
    }
}

// Shares an amount out over the claims in line: each gets its part, rounded down, and the contracts left over go singly
// to those in front that want one more. Refused, and nothing written, where a claim is outside its limits, the place
// numbers do not rise, the claims want less than the amount, or `out` has not one count for each claim.
pub fn share_out<C: Claim>(amount: u32, claims: &[C], out: &mut [u32]) -> Result<(), Refusal>
    ensures answer { result ≡ share_answer amount (map C.wanted claims.now) (map C.standing claims.now) (length out.old) }
    ensures after { out.new ≡ after_share amount (map C.wanted claims.now) (map C.standing claims.now) out.old }
    ensures fair { is_ok result ≡ true → Fair amount (map C.wanted claims.now) out.new }
{
    let total = measure(claims).ok_or(Refusal::OutOfLimits)?;
    if amount > total || out.len() != claims.len() {
        return Err(Refusal::OutOfLimits);
    }
    let rate = Rate { amount, total };
    let left = amount - rate.rounded(claims);
    rate.fill(left, claims, out);
    Ok(())
}
