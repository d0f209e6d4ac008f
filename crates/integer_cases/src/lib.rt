// Examples of what the crate `integer` gives, most of them at the edges: where a
// result just fits or just does not, and where a field just fits its slice.
#![tactic(auto)]

#[cfg(test)]
mod tests {
    use integer::checked::{difference, floor_quotient, in_range, product, sum};
    use integer::fields::{Field, NoRoom, read, write};

    const LIMIT: i64 = 1 << 62;

    const MOST: i64 = LIMIT - 1;

    const MIN: i64 = i64::MIN;

    const MAX: i64 = i64::MAX;

    #[test]
    fn ranges(rt: HostRuntime) {
        const CASES: [(i64, Option<i64>); 7] = [
            (0, Some(0)),
            (MOST, Some(MOST)),
            (-MOST, Some(-MOST)),
            (LIMIT, None),
            (-LIMIT, None),
            (MAX, None),
            (MIN, None),
        ];
        for (a, want) in CASES {
            assert_eq!(rt; in_range(a), want);
        }
    }

    #[test]
    fn sums(rt: HostRuntime) {
        const CASES: [(i64, i64, Option<i64>); 10] = [
            (2, 3, Some(5)),
            (2, -3, Some(-1)),
            (MOST, 0, Some(MOST)),
            (MOST, 1, None),
            (-MOST, -1, None),
            (LIMIT, -1, Some(MOST)),
            (MAX, 1, None),
            (MAX, MAX, None),
            (MIN, MIN, None),
            (MIN, MAX, Some(-1)),
        ];
        for (a, b, want) in CASES {
            assert_eq!(rt; sum(a, b), want);
        }
    }

    #[test]
    fn differences(rt: HostRuntime) {
        const CASES: [(i64, i64, Option<i64>); 10] = [
            (2, 3, Some(-1)),
            (2, -3, Some(5)),
            (-MOST, 0, Some(-MOST)),
            (MOST, -1, None),
            (-MOST, 1, None),
            (-LIMIT, -1, Some(-MOST)),
            (0, MIN, None),
            (MAX, MIN, None),
            (MIN, 1, None),
            (MIN, MIN, Some(0)),
        ];
        for (a, b, want) in CASES {
            assert_eq!(rt; difference(a, b), want);
        }
    }

    #[test]
    fn products(rt: HostRuntime) {
        const CASES: [(i64, i64, Option<i64>); 14] = [
            (-6, 7, Some(-42)),
            (MOST, 1, Some(MOST)),
            (MOST, -1, Some(-MOST)),
            (MOST, 2, None),
            (1 << 31, 1 << 31, None),
            (1 << 31, -(1 << 31), None),
            ((1 << 31) - 1, (1 << 31) + 1, Some(MOST)),
            ((1 << 31) - 1, -(1 << 31) - 1, Some(-MOST)),
            (1 << 32, 1 << 32, None),
            (MAX, 1, None),
            (MAX, MAX, None),
            (MIN, -1, None),
            (MIN, MIN, None),
            (MIN, 0, Some(0)),
        ];
        for (a, b, want) in CASES {
            assert_eq!(rt; product(a, b), want);
        }
    }

    #[test]
    fn floors(rt: HostRuntime) {
        const CASES: [(i64, i64, Option<i64>); 11] = [
            (7, 2, Some(3)),
            (-7, 2, Some(-4)),
            (-8, 2, Some(-4)),
            (-1, MAX, Some(-1)),
            (MIN, 1, Some(MIN)),
            (MIN, MAX, Some(-2)),
            (MAX, MAX, Some(1)),
            (0, 5, Some(0)),
            (7, 0, None),
            (7, -2, None),
            (MIN, -1, None),
        ];
        for (a, d, want) in CASES {
            assert_eq!(rt; floor_quotient(a, d), want);
        }
    }

    #[test]
    fn fields_read(rt: HostRuntime) {
        const BYTES: [u8; 8] = [1, 2, 3, 4, 0xfe, 0xff, 0xff, 0xff];
        // A place, and what stands there without and with a sign.
        const CASES: [(usize, Option<u32>, Option<i32>); 7] = [
            (0, Some(0x0403_0201), Some(0x0403_0201)),
            (1, Some(0xfe04_0302), Some(-0x01fb_fcfe)),
            (4, Some(0xffff_fffe), Some(-2)),
            (5, None, None),
            (8, None, None),
            (usize::MAX - 3, None, None),
            (usize::MAX, None, None),
        ];
        for (at, unsigned, signed) in CASES {
            assert_eq!(rt; read::<u32>(&BYTES, at), unsigned);
            assert_eq!(rt; read::<i32>(&BYTES, at), signed);
        }
        assert_eq!(rt; read::<u32>(&[], 0), None);
        assert_eq!(rt; read::<i32>(&[1, 2, 3], 0), None);
    }

    // A place, a number, whether it is written, and the bytes after.
    type Write<T> = (usize, T, Result<(), NoRoom>, [u8; 6]);

    // What is told of a number written among six bytes, and the bytes after.
    fn written<T: Field>(at: usize, v: T) -> (Result<(), NoRoom>, [u8; 6]) {
        let mut bytes = [7; 6];
        let told = write(&mut bytes, at, v);
        (told, bytes)
    }

    #[test]
    fn unsigned_fields_written(rt: HostRuntime) {
        const CASES: [Write<u32>; 7] = [
            (0, 0x0403_0201, Ok(()), [1, 2, 3, 4, 7, 7]),
            (1, 0, Ok(()), [7, 0, 0, 0, 0, 7]),
            (2, u32::MAX, Ok(()), [7, 7, 0xff, 0xff, 0xff, 0xff]),
            (3, 1, Err(NoRoom), [7; 6]),
            (6, 1, Err(NoRoom), [7; 6]),
            (usize::MAX - 3, 1, Err(NoRoom), [7; 6]),
            (usize::MAX, 1, Err(NoRoom), [7; 6]),
        ];
        for (at, v, want, after) in CASES {
            assert_eq!(rt; written(at, v), (want, after));
        }
    }

    #[test]
    fn signed_fields_written(rt: HostRuntime) {
        const CASES: [Write<i32>; 7] = [
            (0, i32::MAX, Ok(()), [0xff, 0xff, 0xff, 0x7f, 7, 7]),
            (1, i32::MIN, Ok(()), [7, 0, 0, 0, 0x80, 7]),
            (2, -2, Ok(()), [7, 7, 0xfe, 0xff, 0xff, 0xff]),
            (3, -1, Err(NoRoom), [7; 6]),
            (6, -1, Err(NoRoom), [7; 6]),
            (usize::MAX - 3, -1, Err(NoRoom), [7; 6]),
            (usize::MAX, -1, Err(NoRoom), [7; 6]),
        ];
        for (at, v, want, after) in CASES {
            assert_eq!(rt; written(at, v), (want, after));
        }
    }
}
