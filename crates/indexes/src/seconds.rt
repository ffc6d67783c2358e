//! Forms of one key, in the order of their second keys.
ghost use Rattle.std.specs.Prelude.{◌≡◌, ◌≤◌, ◌<◌, ◌↔◌, ℕ, Contains, false, length, nat_lt, true};
ghost use Rattle.std.specs.List.{insert};
ghost use Rattle.std.specs.List.Sorted.{IsPartitionPoint, IsPermutation};
ghost use Rattle.indexes.specs.Seconds.{rank, rank_at, second_key, IsInOrder};

use crate::keys::Key;
use crate::named::key_of_property;
use normal_forms::{Form, FormList};

/// The property of a restriction, the second property of a chain, the target of a pair that is denied.
fn second_of(form: Form) -> Key
    ensures { result ≡ second_key form }
{
    match form {
        Form::N4(r, _, _) => Key::Whole(r.0),
        Form::N6(_, s, _) => key_of_property(s),
        Form::N12(_, _, b) => Key::Whole(b.0),
        _ => Key::Whole(0),
    }
}

/// The place of a key among the keys of both kinds.
fn rank_of(key: Key) -> u64
    ensures result { result ≡ rank key }
    ensures low { result < u64.MAX }
{
    match key {
        Key::Whole(number) => number as u64 + number as u64,
        Key::Partial(number) => number as u64 + number as u64 + 1,
    }
}

/// That of the second key of the form of the number.
fn rank_of_second(forms: &FormList, number: u32) -> u64
    ensures rank { result ≡ rank_at forms.now number }
    ensures low { result < u64.MAX }
{
    match forms.get(number as usize) {
        Some(form) => rank_of(second_of(form)),
        None => 0,
    }
}

/// Puts the numbers into the order of the second keys of the forms.
pub(crate) fn put_in_order(forms: &FormList, numbers: &mut [u32])
    ensures same { IsPermutation numbers.old numbers.new }
    ensures long { length numbers.new ≡ length numbers.old }
    ensures order { IsInOrder forms.now numbers.new }
{
    numbers.sort_unstable_by_key(
        |number: &u32| -> u64
            ensures { result ≡ rank_at forms.entry.now number.now }
        { rank_of_second(forms, *number) },
    );
}

/// How many of the numbers, which are in order, have second keys whose place is below that.
fn count_below(forms: &FormList, numbers: &[u32], bound: u64) -> usize
    requires { IsInOrder forms.now numbers.now }
    ensures within { result ≤ length numbers.now }
    ensures place { IsPartitionPoint (λ n. nat_lt (rank_at forms.now n) bound ≡ true) (λ n. nat_lt (rank_at forms.now n) bound ≡ false) numbers.now result }
{
    numbers.partition_point(
        |number: &u32| -> bool
            ensures { result ≡ nat_lt (rank_at forms.entry.now number.now) bound }
        { rank_of_second(forms, *number) < bound },
    )
}

/// Behind how many of the numbers, which are in order, that of a form stands in order too.
pub(crate) fn place_of(forms: &FormList, numbers: &[u32], number: u32) -> usize
    requires { IsInOrder forms.now numbers.now }
    ensures within { result ≤ length numbers.now }
    ensures order { IsInOrder forms.now (insert numbers.now result number) }
{
    count_below(forms, numbers, rank_of_second(forms, number) + 1)
}

/// Those of the numbers, which are in order, that have that second key.
pub(crate) fn with_second<'a>(forms: &FormList, numbers: &'a [u32], second: Key) -> &'a [u32]
    requires { IsInOrder forms.now numbers.now }
    ensures { (n : ℕ) → Contains result.now n ↔ (Contains numbers.now n × (rank_at forms.now n ≡ rank second)) }
{
    let place = rank_of(second);
    let first = count_below(forms, numbers, place);
    let rest = &numbers[first..];
    let count = count_below(forms, rest, place + 1);
    &rest[..count]
}
