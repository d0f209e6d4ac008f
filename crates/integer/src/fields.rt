// Numbers of four bytes at a place of a slice, the low byte first. A place is
// any number: where four bytes do not fit there, the answer says so.
ghost use Rattle.std.specs.Prelude.{◌≡◌, ℕ, ◌+◌, ◌<◌, ◌≤◌, ◌↔◌, List, length, take, drop, Option, Some, None, IsOk, OnOk, OnErr};
ghost use Rattle.std.specs.Int.{w32};
ghost use Rattle.std.proofs.Common.{to_z};
ghost use Rattle.integer.specs.Fields.{signed_at, unsigned_at};
ghost use Rattle.integer.specs.FieldLaws.{meant_alone, meant_ends};

// A kind of number that four bytes hold.
pub trait Field: Copy {
    // The number at a place, or none where the bytes end before.
    ghost field_at: { List ℕ → ℕ → Option Self };

    fn from_bytes(bytes: [u8; 4]) -> Self
        ensures { field_at bytes 0 ≡ Some result };

    fn to_bytes(self) -> [u8; 4]
        ensures { field_at result 0 ≡ Some self };

    // Four bytes mean at their place what they mean alone.
    ghost alone: { (bs : List ℕ) (at : ℕ) → at + 4 ≤ length bs
        → field_at bs at ≡ field_at (take 4 (drop at bs)) 0 };

    // Nothing stands where the bytes end before.
    ghost ends: { (bs : List ℕ) (at : ℕ) → length bs < at + 4 → field_at bs at ≡ None };
}

impl Field for u32 {
    ghost field_at = { unsigned_at };

    ghost alone = { meant_alone (λ n. n) };

    ghost ends = { meant_ends (λ n. n) };

    fn from_bytes(bytes: [u8; 4]) -> u32 {
        u32::from_le_bytes(bytes)
    }

    fn to_bytes(self) -> [u8; 4] {
        u32::to_le_bytes(self)
    }
}

impl Field for i32 {
    ghost field_at = { signed_at };

    ghost alone = { meant_alone (to_z w32) };

    ghost ends = { meant_ends (to_z w32) };

    fn from_bytes(bytes: [u8; 4]) -> i32 {
        i32::from_le_bytes(bytes)
    }

    fn to_bytes(self) -> [u8; 4] {
        i32::to_le_bytes(self)
    }
}

// Four bytes do not fit at the place.
#[derive(Clone, Copy, Debug, PartialEq)]
pub struct NoRoom;

// The number at a place, or none where the bytes end before.
pub fn read<T: Field>(bytes: &[u8], at: usize) -> Option<T>
    ensures value { result ≡ T.field_at bytes.now at }
{
    let four = bytes.get(at..)?.first_chunk()?;
    Some(T::from_bytes(*four))
}

// Writes a number at a place, or changes nothing where four bytes do not fit
// there. All other bytes stay.
pub fn write<T: Field>(bytes: &mut [u8], at: usize, v: T) -> Result<(), NoRoom>
    ensures fits { IsOk result ↔ (at + 4 ≤ length bytes.old) }
    ensures here { OnOk result (T.field_at bytes.new at ≡ Some v) }
    ensures before { take at bytes.new ≡ take at bytes.old }
    ensures after { drop (at + 4) bytes.new ≡ drop (at + 4) bytes.old }
    ensures refused { OnErr result (bytes.new ≡ bytes.old) }
{
    let end = at
        .checked_add(4)
        .filter(|end| *end <= bytes.len())
        .ok_or(NoRoom)?;
    bytes[at..end].copy_from_slice(&v.to_bytes());
    Ok(())
}
