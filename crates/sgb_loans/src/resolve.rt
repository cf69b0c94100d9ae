//! From a token to a plain fact.
ghost use Rattle.std.specs.Prelude.{◌≡◌, List, length};
ghost use Rattle.std.specs.Borrow.{MutBor};
ghost use Rattle.sgb_loans.specs.declared.loans.Ended.{Ended as Token};

use crate::loans::Ended;

// What `resolve_and_return` says, proved by hand: the slice is lent again, and comes back as what the token says.
fn lend<T, R, F: FnOnce(&mut [T]) -> (Ended<'_, T>, R)>(slice: &mut [T], f: F) -> R
    requires callable { (p : MutBor (List T)) → p.now ≡ slice.old → F.pre f p }
    requires names { (p : MutBor (List T)) (l : Token T) (r : R) → p.now ≡ slice.old → F.post f p (l, r)
        → l.name ≡ p.ghost_name }
    ensures ends { (p : MutBor (List T)) × (l : Token T) × (p.now ≡ slice.old) × F.post f p (l, result)
        × (slice.new ≡ l.value) }
    ensures len { length slice.new ≡ length slice.old }
{
    let (_token, answer) = f(slice);
    answer
}

/// Lends `f` the slice, and gives back what `f` answers beside its token. The slice is then what the token says, which
/// has to be a token of what `f` was lent, and keeps its length.
///
/// ```
/// pub fn clear_long_groups(slice: &mut [u8]) -> usize {
///     resolve_and_return(slice, |part| long_cleared(part)) // it answers a token, and how many groups it cleared
/// }
/// ```
pub fn resolve_and_return<T, R, F: FnOnce(&mut [T]) -> (Ended<'_, T>, R)>(
    slice: &mut [T],
    f: F,
) -> R
    requires callable { (p : MutBor (List T)) → p.now ≡ slice.old → F.pre f p }
    requires names { (p : MutBor (List T)) (l : Token T) (r : R) → p.now ≡ slice.old → F.post f p (l, r)
        → l.name ≡ p.ghost_name }
    ensures ends { (p : MutBor (List T)) × (l : Token T) × (p.now ≡ slice.old) × F.post f p (l, result)
        × (slice.new ≡ l.value) }
    ensures len { length slice.new ≡ length slice.old }
{
    lend(slice, f)
}

/// Lends `f` the slice. The slice is then what the token says that `f` answers, which has to be a token of what `f` was
/// lent, and keeps its length.
///
/// ```
/// pub fn rank_groups(slice: &mut [usize]) {
///     resolve(slice, |part| ranked(part)); // `ranked` answers a token whose value is the ranks of the slice
/// }
/// ```
pub fn resolve<T, F: FnOnce(&mut [T]) -> Ended<'_, T>>(slice: &mut [T], f: F)
    requires callable { (p : MutBor (List T)) → p.now ≡ slice.old → F.pre f p }
    requires names { (p : MutBor (List T)) (l : Token T) → p.now ≡ slice.old → F.post f p l → l.name ≡ p.ghost_name }
    ensures ends { (p : MutBor (List T)) × (l : Token T) × (p.now ≡ slice.old) × F.post f p l × (slice.new ≡ l.value) }
    ensures len { length slice.new ≡ length slice.old }
{
    resolve_and_return(
        slice,
        |part: &mut [T]|
            requires { F.pre f part }
        { (f(part), ()) },
    )
}
