// Texts that are at fault, and the line and cause of each.
use crate::reads::*;

#[test]
fn lines_that_are_no_record(rt: HostRuntime) {
    check_fault(&rt, b"\n", 1, 8);
    check_fault(&rt, b"ST 100 5 10 25 1\nEN", 2, 8);
    check_fault(&rt, b"ST 100 5 10 25 1\nEN\nxx\n", 3, 8);
    check_fault(&rt, b"ST 100 5 10 25 1\nKN -0\nEN\n", 2, 8);
    check_fault(&rt, b"ST 100 5 10 25 1\nKN 01\nEN\n", 2, 8);
    check_fault(&rt, b"ST 100 5 10 25 1\nBX 1073741824 0\nEN\n", 2, 8);
    check_fault(&rt, b"ST 100 5 10 25 1\nBX 1  2\nEN\n", 2, 8);
    check_fault(&rt, b"ST 100 5 10 25 1\nBX 1 2 \nEN\n", 2, 8);
    check_fault(&rt, b"ST 100 5 10 25 1\nGL 1 -2 0 0\nEN\n", 2, 8);
}

#[test]
fn records_out_of_place_and_early_ends(rt: HostRuntime) {
    check_fault(&rt, b"", 1, 9);
    check_fault(&rt, b"EN\n", 1, 9);
    check_fault(&rt, b"ST 100 5 10 25 1\n", 2, 9);
    check_fault(&rt, b"ST 100 5 10 25 1\nEN\nEN\n", 3, 9);
    check_fault(
        &rt,
        b"ST 100 5 10 25 1\nCL 1 1 1 1 1\nCL 1 1 1 1 1\nEN\n",
        3,
        9,
    );
    check_fault(
        &rt,
        b"ST 100 5 10 25 1\nCL 1 1 1 1 1\nCL 0 1 1 10001 1\nEN\n",
        3,
        9,
    );
    check_fault(&rt, b"ST 100 5 10 25 1\nBX 1 1\nCL 0 1 1 1 1\nEN\n", 3, 9);
    check_fault(&rt, b"ST 100 5 10 25 1\nST 100 5 10 25 1\nEN\n", 2, 9);
    check_fault(
        &rt,
        b"ST 100 5 10 25 1\nCL 0 60 5 100 5\nNT 0 2\nBX 1 1\nEN\n",
        5,
        9,
    );
    check_fault(
        &rt,
        b"ST 100 5 10 25 1\nCL 0 60 5 100 5\nNT 0 2\nBX 1 1\n",
        5,
        9,
    );
}

#[test]
fn limits_of_settings_and_classes(rt: HostRuntime) {
    check_fault(&rt, b"ST 0 5 10 25 1\nEN\n", 1, 1);
    check_fault(&rt, b"ST 100 5 10 0 1\nEN\n", 1, 1);
    check_fault(&rt, b"ST 100 5 10 101 1\nEN\n", 1, 1);
    check_fault(&rt, b"ST 100 5 10 25 3\nEN\n", 1, 1);
    check_fault(&rt, b"ST 100 5 10 25 1\nCL 8 1 1 1 1\nEN\n", 2, 1);
    check_fault(&rt, b"ST 100 5 10 25 1\nCL 0 1 1 10001 1\nEN\n", 2, 1);
}
