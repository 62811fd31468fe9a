//! Planes of many lengths.

use column_planes::{and_planes, equal_codes, first_zero, not_plane, or_planes};
use std::test::Fail;

#[test]
fn planes_of_each_length_are_worked_out(rt: HostRuntime) -> Result<(), Fail> {
    let a = [6_u64; 64];
    let b = [3_u64; 64];
    for n in [0_usize, 1, 7, 8, 9, 64] {
        let mut out = [0_u64; 64];
        and_planes(&a[..n], &b[..n], &mut out[..n]);
        assert_eq!(rt; out.iter().filter(|w| **w == 2).count(), n, "and of {n}");
        or_planes(&a[..n], &b[..n], &mut out[..n]);
        assert_eq!(rt; out.iter().filter(|w| **w == 7).count(), n, "or of {n}");
        not_plane(&a[..n], &mut out[..n]);
        assert_eq!(rt;
            out.iter().filter(|w| **w == u64::MAX - 6).count(),
            n,
            "not of {n}"
        );
    }
    Ok(())
}

#[test]
fn the_first_zero_is_found_below_the_bound(rt: HostRuntime) -> Result<(), Fail> {
    let words = [u64::MAX, 1];
    assert_eq!(rt;
        first_zero(&words, 66),
        Some(65),
        "bit 1 of the second word"
    );
    assert_eq!(rt; first_zero(&words, 65), None, "past the bound");
    let mut full = [u64::MAX; 64];
    for n in [0_usize, 1, 7, 8, 9, 64] {
        assert_eq!(rt; first_zero(&full[..n], 64 * n), None, "{n} words are full");
    }
    full[63] = u64::MAX / 2;
    assert_eq!(rt;
        first_zero(&full, 4096),
        Some(4095),
        "the last bit of 64 words"
    );
    Ok(())
}

#[test]
fn equal_codes_are_marked(rt: HostRuntime) -> Result<(), Fail> {
    let mut one = [0_u64];
    equal_codes(&[2, 5, 2], 2, &mut one);
    assert_eq!(rt; one, [5], "the first and the third");
    let mut codes = [7_u16; 66];
    codes[65] = 9;
    let mut two = [0_u64; 2];
    equal_codes(&codes, 9, &mut two);
    assert_eq!(rt; two, [0, 2], "the last of 66");
    let all = [7_u16; 4096];
    for n in [0_usize, 1, 7, 8, 9, 64] {
        let mut out = [0_u64; 64];
        equal_codes(&all[..64 * n], 7, &mut out[..n]);
        assert_eq!(rt;
            out.iter().filter(|w| **w == u64::MAX).count(),
            n,
            "{n} words"
        );
    }
    Ok(())
}
