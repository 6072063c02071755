//! What the calls on numbers answer at those worked out by hand: small ones, and those at the ends of the range.
use ded_num::{bits, checked_mix, cmp_frac, gcd, quotient};
use std::cmp::Ordering::{self, Equal, Greater, Less};

const MIN: i128 = i128::MIN;

const MAX: i128 = i128::MAX;

/// Divisors, quotients and lengths.
#[test]
fn whole_numbers(rt: HostRuntime) {
    for (a, b, want) in [
        (12, -18, 6),
        (0, 0, 0),
        (0, -5, 5),
        (-7, 13, 1),
        (MAX, -MAX, MAX),
    ] {
        assert!(rt; a != MIN && b != MIN);
        assert_eq!(rt;
            gcd(a, b),
            want,
            "the greatest common divisor of {a} and {b}"
        );
    }
    assert_eq!(rt; quotient(-7, 2), -3);
    assert_eq!(rt; quotient(MIN, 1), MIN);
    for (a, want) in [
        (0, 0),
        (1, 1),
        (-8, 4),
        (9_223_372_036_854_775_807, 63),
        (MAX, 127),
        (MIN, 128),
    ] {
        assert_eq!(rt; bits(a), want, "the length of {a}");
    }
}

/// The order of fractions.
#[test]
fn orders_fractions(rt: HostRuntime) {
    let table: [(i128, i128, i128, i128, Ordering); 13] = [
        (1, 3, 2, 6, Equal),
        (-1, 2, 1, 3, Less),
        (0, 1, 0, MAX, Equal),
        (0, 5, -1, MAX, Greater),
        (MAX, 1, 1, MAX, Greater),
        (MIN, 1, MIN, 2, Less),
        (MIN, MAX, MIN, MAX, Equal),
        (MIN, MAX, -1, 1, Less),
        (MIN, MAX - 1, -MAX, MAX - 1, Less),
        (MAX, MAX - 1, MAX - 1, MAX - 2, Less),
        (-MAX, MAX - 1, 1 - MAX, MAX - 2, Greater),
        (MIN, MAX, -MAX, MAX - 1, Greater),
        // neighbours in Fibonacci's sequence, which take the most steps
        (
            78_569_350_599_398_894_027_251_472_817_058_687_522,
            48_558_529_144_435_440_119_720_805_669_229_197_641,
            127_127_879_743_834_334_146_972_278_486_287_885_163,
            78_569_350_599_398_894_027_251_472_817_058_687_522,
            Greater,
        ),
    ];
    for (n1, d1, n2, d2, want) in table {
        assert!(rt; 0 < d1 && 0 < d2);
        assert!(rt;
            cmp_frac(n1, d1, n2, d2) == want,
            "the order of {n1}/{d1} and {n2}/{d2}"
        );
    }
}

/// Sums of two products, where they are short.
#[test]
fn mixes(rt: HostRuntime) {
    let longest: i128 = 9_223_372_036_854_775_807;
    let table: [(i128, i128, i128, i128, Option<i128>); 13] = [
        (
            2,
            85_070_591_730_234_615_865_843_651_857_942_052_864,
            -1,
            1,
            None,
        ),
        (
            longest,
            longest,
            longest,
            longest,
            Some(170_141_183_460_469_231_694_793_815_568_465_002_498),
        ),
        (3, 4, -5, 6, Some(-18)),
        (MAX, 1, 0, 5, Some(MAX)),
        (MAX, 1, -MAX, 1, Some(0)),
        (MAX, 1, 1, 1, None),
        (-MAX, 1, -1, 1, None),
        (MIN, 0, 1, 1, Some(1)),
        (MIN, 1, 0, 0, None),
        (-1, MIN, 0, 0, None),
        (1, 1, MIN, -1, None),
        (1, MIN, 1, MAX, None),
        (MIN, MIN, MIN, MIN, None),
    ];
    for (a, x, b, y, want) in table {
        assert_eq!(rt; checked_mix(a, x, b, y), want, "{a} * {x} + {b} * {y}");
    }
}
