// Both rules on examples. A list holds 9 wherever no award is written.
use crate::first_come::FirstCome;
use crate::pro_rata::ProRata;
use crate::rule::ShareRule;
use std::convert::Infallible;
use terms::refusal::Refusal;

fn row(answer: Result<(), Refusal<Infallible>>) -> u32 {
    match answer {
        Ok(()) => 0,
        Err(refusal) => refusal.number(),
    }
}

// An Agency Order of 33 whose Initiating Order has its guarantee of 13 leaves 20 for three users.
#[test]
fn leftovers_go_to_the_first_ranks(rt: HostRuntime) {
    let mut given = [9; 4];
    assert_eq!(rt; row(ProRata.share(&[10, 10, 10], 20, &mut given)), 0);
    assert_eq!(rt; given, [7, 7, 6, 9]);
    assert_eq!(rt; row(ProRata.share(&[0, 1, 0, 2], 2, &mut given)), 0);
    assert_eq!(rt; given, [0, 1, 0, 1]);
}

#[test]
fn pro_rata_at_its_ends(rt: HostRuntime) {
    let mut given = [9; 3];
    assert_eq!(rt; row(ProRata.share(&[4, 5], 0, &mut given)), 0);
    assert_eq!(rt; given, [0, 0, 9]);
    assert_eq!(rt; row(ProRata.share(&[4, 5], 9, &mut given)), 0);
    assert_eq!(rt; given, [4, 5, 9]);
    assert_eq!(rt; row(ProRata.share(&[5], 3, &mut given)), 0);
    assert_eq!(rt; given, [3, 5, 9]);
    assert_eq!(rt; row(ProRata.share(&[0, 0], 7, &mut given)), 0);
    assert_eq!(rt; given, [0, 0, 9]);
}

#[test]
fn the_most_and_largest_sizes(rt: HostRuntime) {
    let sizes = [100000; 128];
    let mut given = [9; 128];
    assert_eq!(rt; row(ProRata.share(&sizes, 100000, &mut given)), 0);
    assert_eq!(rt; given[0], 782);
    assert_eq!(rt; given[31], 782);
    assert_eq!(rt; given[32], 781);
    assert_eq!(rt; given[127], 781);
    assert_eq!(rt; row(FirstCome.share(&sizes, 100000, &mut given)), 0);
    assert_eq!(rt; given[0], 100000);
    assert_eq!(rt; given[1], 0);
}

#[test]
fn first_come_fills_in_rank_order(rt: HostRuntime) {
    let mut given = [9; 4];
    assert_eq!(rt; row(FirstCome.share(&[10, 10, 10], 15, &mut given)), 0);
    assert_eq!(rt; given, [10, 5, 0, 9]);
    assert_eq!(rt; row(FirstCome.share(&[3, 0, 4], 9, &mut given)), 0);
    assert_eq!(rt; given, [3, 0, 4, 9]);
    assert_eq!(rt; row(FirstCome.share(&[3], 0, &mut given)), 0);
    assert_eq!(rt; given, [0, 0, 4, 9]);
}

#[test]
fn a_refusal_leaves_the_list(rt: HostRuntime) {
    let mut given = [9; 2];
    assert_eq!(rt; row(ProRata.share(&[0; 129], 1, &mut given)), 3);
    assert_eq!(rt; row(ProRata.share(&[100001, 1], 1, &mut given)), 3);
    assert_eq!(rt; row(ProRata.share(&[1, 1], 100001, &mut given)), 3);
    assert_eq!(rt; row(ProRata.share(&[1, 1, 1], 1, &mut given)), 4);
    assert_eq!(rt; row(FirstCome.share(&[1, 1, 100001], 1, &mut given)), 3);
    assert_eq!(rt; row(FirstCome.share(&[1, 1, 1], 1, &mut given)), 4);
    assert_eq!(rt; given, [9, 9]);
}
