//! Numbers in decimal, behind a text.

ghost use Rattle.std.specs.Fmt.{decimal};
ghost use Rattle.std.specs.Prelude.{◌≡◌, ◌+◌, ◌/◌, ◌%◌, ◌<◌, ◌≤◌, ◌^◌, ◌++◌, ◌∷◌, [], OnOk, vec_capacity, vec_len};

use itoa::Buffer;
use std::alloc::AllocError;

/// The numbers below 100, each by two digits.
static PAIRS: [u8; 200] =
    *b"00010203040506070809101112131415161718192021222324252627282930313233343536373839404142434445464748495051525354555657585960616263646566676869707172737475767778798081828384858687888990919293949596979899";

/// Adds two digits, in room that is there.
#[inline(always)]
fn put_pair(out: &mut Vec<u8>, number: u64)
    requires below { number < 100 }
    requires room { vec_len out.old + 2 ≤ vec_capacity out.old }
    ensures items { out.new.items ≡ out.old.items ++ (48 + number / 10) ∷ (48 + number % 10) ∷ [] }
    ensures len { vec_len out.new ≡ vec_len out.old + 2 }
    ensures capacity { vec_capacity out.new ≡ vec_capacity out.old }
{
    let place = number as usize * 2;
    out.push_reserved(PAIRS[place]);
    out.push_reserved(PAIRS[place + 1]);
}

/// Adds the digits of a number below 100, in room that is there.
#[inline(always)]
#[tactic(auto, using(std::proofs::lemmas::Fmt::decimal_digit, crate::proofs::Decimals::decimal_two))]
fn put_first(out: &mut Vec<u8>, number: u64)
    requires below { number < 100 }
    requires room { vec_len out.old + 2 ≤ vec_capacity out.old }
    ensures items { out.new.items ≡ out.old.items ++ decimal number }
    ensures len { vec_len out.new ≤ vec_len out.old + 2 }
    ensures capacity { vec_capacity out.new ≡ vec_capacity out.old }
{
    if number < 10 {
        out.push_reserved(b'0' + number as u8);
    } else {
        put_pair(out, number);
    }
}

/// Adds the digits of a number below 10,000, in room that is there.
#[inline(always)]
fn put_short(out: &mut Vec<u8>, number: u64)
    requires below { number < 10000 }
    requires room { vec_len out.old + 4 ≤ vec_capacity out.old }
    ensures items { out.new.items ≡ out.old.items ++ decimal number }
    ensures len { vec_len out.new ≤ vec_len out.old + 4 }
    ensures capacity { vec_capacity out.new ≡ vec_capacity out.old }
{
    if number < 100 {
        put_first(out, number);
    } else {
        put_first(out, number / 100);
        put_pair(out, number % 100);
    }
}

/// Adds the digits of a number below 10^8, in room that is there.
#[inline(always)]
fn put_long(out: &mut Vec<u8>, number: u64)
    requires below { number < 10 ^ 8 }
    requires room { vec_len out.old + 8 ≤ vec_capacity out.old }
    ensures items { out.new.items ≡ out.old.items ++ decimal number }
{
    if number < 10_000 {
        put_short(out, number);
    } else {
        put_short(out, number / 10_000);
        let last = number % 10_000;
        put_pair(out, last / 100);
        put_pair(out, last % 100);
    }
}

/// Adds the digits of a number.
fn push_some(out: &mut Vec<u8>, number: u64) -> Result<(), AllocError>
    ensures { OnOk result (out.new.items ≡ out.old.items ++ decimal number) }
{
    if number >= 100_000_000 {
        let mut buffer = Buffer::new();
        return out.extend_from_slice(buffer.format(number).as_bytes());
    }
    out.reserve(8)?;
    put_long(out, number);
    Ok(())
}

/// Adds the digits of the number. One digit needs no call: a third of all numbers in a certificate have no more.
#[inline(always)]
#[tactic(auto, using(std::proofs::lemmas::Fmt::decimal_digit))]
pub(crate) fn push_digits(out: &mut Vec<u8>, number: u64) -> Result<(), AllocError>
    ensures { OnOk result (out.new.items ≡ out.old.items ++ decimal number) }
{
    if number >= 10 {
        return push_some(out, number);
    }
    out.reserve(1)?;
    out.push_reserved(b'0' + number as u8);
    Ok(())
}
