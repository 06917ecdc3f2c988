//! Tables of runs, and the runs that no row can say.

mod bench;
mod codes;
mod components;
mod every_scheme;
mod expressions;
mod input;
mod large;
mod lightest;
mod limits;
mod named;
mod networks;
mod recheck;
mod rows;
mod rules;
mod simulate;
mod splice;
mod streams;
mod trees;
mod watch;
mod words;

use rows::assert_rows;

#[test]
fn networks_are_marked_and_labels_judged(rt: HostRuntime) {
    let tables = [
        codes::ROWS,
        components::ROWS,
        expressions::ROWS,
        lightest::ROWS,
    ];
    assert_rows(&rt, rt.alloc(), &tables);
    assert_rows(&rt, rt.alloc(), &[networks::ROWS, trees::ROWS]);
}

#[test]
fn words_schemes_and_rules_are_read(rt: HostRuntime) {
    assert_rows(
        &rt,
        rt.alloc(),
        &[every_scheme::ROWS, rules::ROWS, words::ROWS],
    );
}

#[test]
fn rounds_are_played_watched_and_judged_again(rt: HostRuntime) {
    let tables = [recheck::ROWS, simulate::ROWS, splice::ROWS, watch::ROWS];
    assert_rows(&rt, rt.alloc(), &tables);
}

#[test]
fn large_inputs_are_judged_and_limits_told(rt: HostRuntime) {
    assert_rows(&rt, rt.alloc(), &[large::ROWS, limits::ROWS]);
}
