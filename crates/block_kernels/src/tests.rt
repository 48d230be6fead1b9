//! Each kernel at each length up to 8, with cells at the ends of the range, and each fold up to 17, twice its lanes and one more.
//! Expected values are worked out by hand.

use crate::{
    add, add_to_both, add_to_left, add_to_right, copy, copy_along, fill, greatest, jacobi2, least,
    ramp, scale, scale_to_left, shift, shift_to_left, sub, sub_to_both, sub_to_left, sub_to_right,
    sum,
};

const LEFT: [i64; 8] = [i64::MAX, i64::MIN, -1, 0, 1, 7, -8, 1000];

const RIGHT: [i64; 8] = [i64::MAX, -1, i64::MIN, 0, 2, -3, 5, -1000];

#[test]
fn cells_are_made(rt: HostRuntime) {
    let from_max = [
        i64::MAX,
        i64::MIN + 2,
        i64::MIN + 5,
        i64::MIN + 8,
        i64::MIN + 11,
        i64::MIN + 14,
        i64::MIN + 17,
        i64::MIN + 20,
    ];
    let by_min = [
        1,
        i64::MIN + 1,
        1,
        i64::MIN + 1,
        1,
        i64::MIN + 1,
        1,
        i64::MIN + 1,
    ];
    for n in 0..9 {
        let mut dst = [0; 8];
        fill(&mut dst[..n], i64::MIN);
        assert_eq!(rt; &dst[..n], &[i64::MIN; 8][..n], "fill {n}");
        ramp(&mut dst[..n], i64::MAX, 3);
        assert_eq!(rt;
            &dst[..n],
            &from_max[..n],
            "ramp {n} from the greatest number"
        );
        ramp(&mut dst[..n], 1, i64::MIN);
        assert_eq!(rt; &dst[..n], &by_min[..n], "ramp {n} by the least number");
        copy(&mut dst[..n], &LEFT[..n]);
        assert_eq!(rt; &dst[..n], &LEFT[..n], "copy {n}");
    }
}

#[test]
fn cells_are_computed(rt: HostRuntime) {
    let sums = [-2, i64::MAX, i64::MAX, 0, 3, 4, -3, 0];
    let differences = [0, i64::MIN + 1, i64::MAX, 0, -1, 10, -13, 2000];
    let triples = [i64::MAX - 2, i64::MIN, -3, 0, 3, 21, -24, 3000];
    let quarters = [(1 << 61) - 1, -(1 << 61), -1, 0, 0, 1, -2, 250];
    let signs = [0, -1, -1, 0, 0, 0, -1, 0];
    for n in 0..9 {
        let mut dst = [0; 8];
        add(&mut dst[..n], &LEFT[..n], &RIGHT[..n]);
        assert_eq!(rt; &dst[..n], &sums[..n], "add {n}");
        sub(&mut dst[..n], &LEFT[..n], &RIGHT[..n]);
        assert_eq!(rt; &dst[..n], &differences[..n], "sub {n}");
        scale(&mut dst[..n], &LEFT[..n], 3);
        assert_eq!(rt; &dst[..n], &triples[..n], "scale {n}");
        shift(&mut dst[..n], &LEFT[..n], 2);
        assert_eq!(rt; &dst[..n], &quarters[..n], "shift {n} by 2");
        shift(&mut dst[..n], &LEFT[..n], 63);
        assert_eq!(rt; &dst[..n], &signs[..n], "shift {n} by 63");
    }
}

#[test]
fn cells_are_computed_in_place(rt: HostRuntime) {
    let sums = [-2, i64::MAX, i64::MAX, 0, 3, 4, -3, 0];
    let doubles = [-2, 0, -2, 0, 2, 14, -16, 2000];
    let differences = [0, i64::MIN + 1, i64::MAX, 0, -1, 10, -13, 2000];
    let backward = [0, i64::MAX, i64::MIN + 1, 0, 1, -10, 13, -2000];
    let triples = [i64::MAX - 2, i64::MIN, -3, 0, 3, 21, -24, 3000];
    let quarters = [(1 << 61) - 1, -(1 << 61), -1, 0, 0, 1, -2, 250];
    for n in 0..9 {
        let mut dst = LEFT;
        add_to_left(&mut dst[..n], &RIGHT[..n]);
        assert_eq!(rt; &dst[..n], &sums[..n], "add to the left {n}");
        assert_eq!(rt; &dst[n..], &LEFT[n..], "behind an add {n}");
        let mut dst = LEFT;
        add_to_right(&mut dst[..n], &RIGHT[..n]);
        assert_eq!(rt; &dst[..n], &sums[..n], "add to the right {n}");
        let mut dst = LEFT;
        add_to_both(&mut dst[..n]);
        assert_eq!(rt; &dst[..n], &doubles[..n], "add to both {n}");
        let mut dst = LEFT;
        sub_to_left(&mut dst[..n], &RIGHT[..n]);
        assert_eq!(rt; &dst[..n], &differences[..n], "sub to the left {n}");
        let mut dst = LEFT;
        sub_to_right(&mut dst[..n], &RIGHT[..n]);
        assert_eq!(rt; &dst[..n], &backward[..n], "sub to the right {n}");
        let mut dst = LEFT;
        sub_to_both(&mut dst[..n]);
        assert_eq!(rt; &dst[..n], &[0; 8][..n], "sub to both {n}");
        let mut dst = LEFT;
        scale_to_left(&mut dst[..n], 3);
        assert_eq!(rt; &dst[..n], &triples[..n], "scale in place {n}");
        let mut dst = LEFT;
        shift_to_left(&mut dst[..n], 2);
        assert_eq!(rt; &dst[..n], &quarters[..n], "shift in place {n}");
    }
}

// Eight cells 10, 11, .. 17: those from `from` on, so many, are copied to `to`, by each distance in both directions.
#[test]
fn cells_are_copied_along_themselves(rt: HostRuntime) {
    for from in 0..8 {
        for to in 0..8 {
            for count in 0..9 - from.max(to) {
                let mut cells = [10, 11, 12, 13, 14, 15, 16, 17];
                copy_along(&mut cells, from, to, count);
                for i in 0..8 {
                    let moved = to <= i && i < to + count;
                    let source = if moved { i + from - to } else { i };
                    assert_eq!(rt;
                        cells[i],
                        10 + source as i64,
                        "{from} to {to}, {count} cells, at {i}"
                    );
                }
            }
        }
    }
}

#[test]
fn the_stencil_wraps_and_then_shifts(rt: HostRuntime) {
    let left = [i64::MAX, i64::MAX, i64::MAX, 0, i64::MIN, 5, 1, 2, 4, -7];
    let want = [-1, (1 << 61) - 1, -1, 1, 2 - (1 << 61), 2, 2, 0];
    for n in 0..9 {
        let mut dst = [0; 8];
        jacobi2(&mut dst[..n], &left[..n + 2]);
        assert_eq!(rt; &dst[..n], &want[..n], "jacobi2 {n}");
    }
}

#[test]
fn cells_are_folded(rt: HostRuntime) {
    assert_eq!(rt; sum(&[]), 0);
    let rows: [(&[i64], i64, i64, i64); 5] = [
        (&[-3], -3, -3, -3),
        (&[i64::MAX, i64::MAX, 3], 1, 3, i64::MAX),
        (&[5, i64::MIN, -9], i64::MAX - 3, i64::MIN, 5),
        (&[3, 1, 4, 1, 5, 9, 2, 6], 31, 1, 9),
        (&LEFT, 998, i64::MIN, i64::MAX),
    ];
    for (cells, total, lowest, highest) in rows {
        assert_eq!(rt; sum(cells), total);
        if !cells.is_empty() {
            assert_eq!(rt; least(cells), lowest);
            assert_eq!(rt; greatest(cells), highest);
        }
    }
}

// So many cells that are 5, but for one: it is met wherever it stands, and met once.
#[test]
fn every_cell_is_added_once(rt: HostRuntime) {
    for n in 1..18 {
        for place in 0..n {
            let mut cells = [5; 17];
            cells[place] = -3;
            assert_eq!(rt; sum(&cells[..n]), 5 * n as i64 - 8, "sum of {n}, {place}");
        }
    }
}

#[test]
fn the_least_is_found_wherever_it_stands(rt: HostRuntime) {
    for n in 1..18 {
        for place in 0..n {
            let mut cells = [5; 17];
            cells[place] = -3;
            assert_eq!(rt; least(&cells[..n]), -3, "least of {n}, {place}");
        }
    }
}

#[test]
fn the_greatest_is_found_wherever_it_stands(rt: HostRuntime) {
    for n in 1..18 {
        for place in 0..n {
            let mut cells = [-5; 17];
            cells[place] = i64::MAX;
            assert_eq!(rt; greatest(&cells[..n]), i64::MAX, "greatest of {n}, {place}");
        }
    }
}

// A cell behind the slice isn't met; and lanes wrap.
#[test]
fn no_other_cell_is_folded(rt: HostRuntime) {
    for n in 1..17 {
        let mut cells = [i64::MIN; 17];
        cells[n] = 1;
        let even = n % 2 == 0;
        assert_eq!(rt;
            sum(&cells[..n]),
            if even { 0 } else { i64::MIN },
            "sum of {n}"
        );
        assert_eq!(rt; greatest(&cells[..n]), i64::MIN, "greatest of {n}");
        cells[n] = i64::MIN;
        cells[0] = i64::MAX;
        assert_eq!(rt; least(&cells[..1]), i64::MAX, "least of the first, {n}");
    }
}
