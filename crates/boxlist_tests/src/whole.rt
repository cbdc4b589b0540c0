// Texts that are read to their end, whatever a book may say of their entries.
use crate::reads::*;

#[test]
fn texts_read_to_their_end_1(rt: HostRuntime) {
    check_whole(
        &rt,
        b"ST 100 0 0 25 1\nCL 3 0 0 100 5\nCL 4 60 5 10 5\nCL 6 1073741823 0 100 5\nPN 100\nBX 8 0\nGL -3 0 2 8\nGL 5 10 0 0\nGL 10 16 0 8\nBX 0 2\nKN 12\nBX 1 5\nBX 1 5\nGL 5 3 0 0\nPN 0\nGL 0 0 0 0\nBX 3 5\nPN 5689\nBX 28 0\nBX 1 9\nNT 6 3\nBX 0 0\nBX 1 0\nGL 6 0 0 0\nGL 3 30 0 0\nGL 10 18 0 0\nBX 1 5\nBX 40 0\nNT 3 9\nGL 10 10 2 0\nGL 10 0 0 0\nGL 2 10 0 0\nKN -4\nGL 5 3 0 0\nBX 20 5\nGL 2 0 3 8\nGL 0 12 0 0\nBX 3 9\nKN 0\nBX 10 0\nPN 2437\nPN -50\nPN -10000\nNT 6 1\nPN -50\nGL -3 30 1 0\nBX 0 9\nBX 20 0\nBX 40 5\nGL -3 0 0 0\nBX 20 0\nGL 2 10 0 0\nBX 1 0\nBX 1 0\nPN -50\nNT 4 2\nGL 22 3 0 0\nBX 20 0\nBX 0 0\nGL 0 0 0 2\nBX 10 0\nNT 6 1\nGL 2 0 1 8\nGL -17 10 0 2\nEN\n",
    );
    check_whole(
        &rt,
        b"ST 100 5 10 25 2\nCL 1 100 0 0 2\nCL 2 10 0 100 50\nPN 10000\nBX 10 9\nBX 10 5\nPN -10000\nBX 8 0\nPN 0\nBX 8 0\nBX 28 0\nNT 2 1\nPN -10000\nNT 1 3\nPN 0\nKN 4\nBX 33 2\nBX 1 5\nNT 1 5\nBX 10 2\nGL -11 3 3 2\nGL 20 10 0 0\nGL -3 10 3 8\nBX 10 0\nNT 2 3\nGL 2 21 1 0\nBX 20 5\nGL 5 10 1 2\nGL -3 3 1 2\nBX 46 0\nNT 2 2\nGL 5 0 2 8\nKN -4\nEN\n",
    );
    check_whole(
        &rt,
        b"ST 300 100 10 1 0\nCL 3 10 5 10000 0\nCL 4 100 0 100 2\nPN -9999\nGL 10 3 0 2\nGL 4 0 0 0\nGL -3 3 1 0\nNT 3 1\nGL 5 0 0 2\nGL -3 0 0 0\nBX 0 0\nBX 8 2\nPN 9999\nKN -4\nNT 4 3\nBX 1 0\nBX 0 5\nGL 0 0 0 8\nNT 4 5\nGL -3 3 3 0\nGL 0 3 0 8\nBX 1 2\nBX 0 0\nPN 0\nGL 5 0 0 0\nNT 3 1\nBX 8 0\nNT 4 5\nBX 1 0\nGL 2 10 0 2\nBX 20 0\nPN 0\nBX 8 0\nBX 3 5\nGL 5 0 0 2\nKN -4\nGL 2 0 0 8\nNT 3 9\nKN -4\nBX 20 0\nBX 1 9\nGL 0 0 3 8\nBX 38 5\nPN 50\nBX 0 5\nBX 10 9\nKN 15\nGL -9 9 0 2\nBX 10 0\nBX 1 5\nNT 4 9\nBX 10 0\nBX 3 0\nGL 10 12 0 8\nPN -50\nGL 0 3 1 0\nKN 12\nBX 0 0\nBX 23 9\nGL 0 0 0 0\nPN 100\nGL 0 0 0 0\nBX 20 9\nEN\n",
    );
    check_whole(
        &rt,
        b"ST 60 2 8 1 2\nCL 0 30 20 10000 0\nCL 1 1073741823 0 10 5\nCL 2 0 20 100 0\nCL 3 60 0 10000 2\nCL 4 100 0 10000 2\nCL 5 1073741823 0 10000 2\nCL 6 60 5 10000 5\nCL 7 60 20 10000 2\nPN 9999\nNT 5 1\nGL 2 38 0 2\nGL 0 10 2 8\nGL 0 10 0 0\nKN -4\nGL 5 0 0 8\nBX 3 5\nNT 6 9\nBX 8 2\nGL 2 21 1 2\nKN 0\nBX 10 2\nGL -3 0 2 0\nGL 0 0 0 2\nBX 3 5\nBX 3 5\nBX 8 2\nPN 4363\nGL 10 3 2 0\nKN 4\nBX 0 5\nGL -3 32 1 2\nGL -20 10 0 0\nBX 20 9\nGL 10 8 1 0\nBX 20 0\nPN 10000\nBX 3 0\nPN 9999\nEN\n",
    );
    check_whole(
        &rt,
        b"ST 100 100 30 100 2\nCL 7 0 20 10000 5\nNT 7 3\nKN -4\nBX 3 5\nPN -10000\nNT 7 5\nBX 10 2\nBX 8 0\nBX 10 0\nBX 0 0\nGL 0 0 0 0\nEN\n",
    );
    check_whole(
        &rt,
        b"ST 40 2 30 2 2\nCL 1 60 20 100 5\nCL 7 0 0 0 50\nBX 0 0\nBX 8 9\nBX 20 2\nBX 10 2\nKN 4\nBX 20 2\nKN -4\nBX 47 0\nGL 5 10 0 8\nBX 10 0\nPN -9999\nBX 3 2\nGL -3 0 3 0\nBX 8 0\nPN 50\nKN 4\nBX 10 0\nKN 0\nNT 1 9\nGL 10 3 0 0\nGL -15 0 2 2\nGL 0 0 3 0\nKN -4\nBX 3 9\nKN 4\nGL 2 0 3 8\nPN 10000\nPN -50\nBX 3 0\nGL 0 28 2 0\nKN 1\nNT 7 5\nGL 2 20 0 0\nGL 10 0 1 8\nPN 0\nGL 0 10 1 0\nPN 100\nBX 0 9\nGL 5 25 0 0\nPN 0\nBX 0 0\nBX 8 0\nBX 10 9\nGL -13 0 0 0\nBX 54 0\nNT 7 2\nBX 10 9\nBX 10 0\nGL -3 10 0 0\nBX 55 9\nGL 2 0 1 0\nKN 4\nBX 4 5\nGL 0 38 1 0\nBX 3 0\nNT 7 2\nBX 0 9\nBX 8 0\nGL 2 10 0 2\nGL 4 10 2 2\nEN\n",
    );
    check_whole(
        &rt,
        b"ST 300 5 10 3 0\nCL 3 0 0 100 2\nNT 3 2\nKN 0\nGL 2 22 3 8\nEN\n",
    );
    check_whole(
        &rt,
        b"ST 100 5 10 3 2\nCL 0 30 0 5000 50\nCL 1 0 0 100 2\nCL 2 100 0 5000 2\nCL 3 100 0 10000 50\nCL 4 100 0 10 0\nCL 5 10 5 5000 2\nCL 6 0 0 10000 0\nCL 7 10 20 5000 2\nBX 8 0\nBX 8 5\nNT 6 7\nGL 0 10 2 8\nGL 5 10 2 0\nPN -9999\nKN 12\nGL 0 10 2 0\nBX 10 0\nGL 5 3 0 2\nEN\n",
    );
    check_whole(
        &rt,
        b"ST 60 100 10 3 2\nCL 7 10 0 10000 5\nBX 20 0\nGL 5 27 0 8\nPN 50\nBX 20 9\nBX 20 2\nBX 20 2\nBX 10 0\nBX 20 0\nGL -3 0 1 0\nBX 10 5\nNT 7 1\nBX 1 0\nNT 7 1\nGL 5 0 0 0\nNT 7 5\nPN 9999\nBX 8 9\nPN 50\nGL -3 10 3 0\nPN 0\nNT 7 14\nBX 10 2\nGL 2 0 0 0\nBX 37 9\nBX 20 5\nGL 2 30 1 8\nGL -3 10 1 0\nKN 4\nBX 1 0\nPN 0\nBX 1 5\nBX 3 0\nGL -20 0 2 0\nBX 0 0\nBX 20 9\nNT 7 1\nBX 3 2\nBX 1 9\nGL -3 23 0 8\nBX 39 9\nGL 10 0 0 8\nNT 7 2\nGL -5 0 2 8\nBX 3 0\nNT 7 2\nBX 33 9\nKN -4\nGL 1 8 1 0\nNT 7 5\nGL -3 2 0 8\nGL -3 0 2 0\nPN 50\nBX 20 0\nBX 8 0\nNT 7 1\nKN 0\nGL 0 3 2 0\nBX 48 0\nBX 10 0\nBX 0 0\nPN 1185\nNT 7 3\nBX 1 0\nBX 0 5\nGL 9 13 0 2\nBX 1 0\nBX 30 2\nKN 12\nPN -10000\nGL 0 3 0 8\nBX 34 5\nBX 20 9\nNT 7 5\nGL 5 10 0 2\nBX 10 5\nBX 10 5\nKN 0\nBX 8 0\nPN -9391\nNT 7 9\nBX 8 5\nKN 12\nGL 2 0 3 0\nKN 0\nKN 0\nGL 5 3 3 2\nPN 5817\nKN 22\nBX 10 2\nNT 7 3\nBX 3 2\nKN -4\nBX 10 5\nGL 10 10 3 2\nBX 10 2\nGL -3 4 0 8\nBX 10 9\nNT 7 9\nGL 2 10 3 8\nGL 5 0 0 0\nGL -3 40 0 2\nBX 0 0\nBX 20 9\nKN 17\nGL -3 3 0 2\nGL -3 5 0 8\nBX 20 5\nBX 3 5\nBX 8 0\nPN 100\nKN 12\nBX 1 0\nBX 10 9\nGL -13 5 0 2\nGL -3 0 0 0\nNT 7 1\nBX 8 2\nPN -50\nGL -3 0 2 2\nPN 100\nEN\n",
    );
    check_whole(
        &rt,
        b"ST 1073741823 0 0 1 1\nCL 0 1073741823 0 0 50\nCL 1 30 0 10000 2\nCL 2 60 0 10000 50\nCL 3 1073741823 0 10 5\nCL 4 10 5 0 2\nCL 5 1073741823 0 5000 50\nCL 6 30 0 10 2\nCL 7 60 0 10000 0\nGL 2 0 0 0\nGL -3 3 0 0\nBX 20 0\nBX 10 9\nGL 22 0 3 0\nBX 8 9\nBX 0 0\nBX 3 2\nBX 8 5\nNT 1 1\nBX 3 0\nKN 25\nGL 6 3 0 2\nGL -3 0 1 0\nNT 1 14\nGL -3 4 3 2\nKN 6\nKN -2\nPN -9999\nBX 1 0\nGL 0 3 0 0\nGL -3 23 3 8\nBX 10 2\nKN -4\nPN -10000\nBX 0 9\nBX 3 2\nGL 10 10 0 2\nBX 0 5\nBX 1 0\nEN\n",
    );
}

#[test]
fn texts_read_to_their_end_2(rt: HostRuntime) {
    check_whole(
        &rt,
        b"ST 300 2 10 2 0\nCL 3 10 20 10000 2\nBX 0 0\nNT 3 2\nBX 3 0\nKN 4\nBX 3 9\nBX 20 2\nBX 8 0\nKN 12\nNT 3 5\nPN -10000\nGL 0 0 0 2\nBX 9 5\nKN 4\nBX 3 9\nGL -3 3 0 8\nKN 0\nBX 1 2\nNT 3 1\nGL 10 10 2 8\nBX 20 0\nGL -8 0 0 0\nNT 3 1\nBX 20 0\nBX 57 0\nBX 1 0\nNT 3 2\nPN 0\nBX 3 0\nGL 2 3 3 0\nGL 5 0 3 0\nNT 3 3\nBX 37 0\nGL -3 0 0 0\nPN -50\nBX 0 0\nNT 3 2\nBX 0 0\nBX 20 0\nBX 10 2\nBX 0 0\nBX 1 2\nNT 3 1\nKN 0\nKN -4\nNT 3 2\nBX 0 0\nBX 0 0\nGL 5 0 1 2\nBX 3 2\nBX 3 2\nNT 3 9\nBX 0 0\nGL 10 6 0 0\nBX 3 9\nBX 52 2\nBX 1 0\nKN 4\nBX 1 0\nGL 5 3 0 0\nBX 8 0\nEN\n",
    );
    check_whole(
        &rt,
        b"ST 60 0 0 2 0\nCL 6 1073741823 20 5000 5\nGL 10 0 3 0\nGL -1 10 0 0\nPN -9999\nBX 1 0\nNT 6 1\nBX 29 5\nNT 6 2\nGL 7 0 0 0\nPN 50\nBX 8 0\nGL 0 3 0 8\nPN 10000\nBX 1 2\nNT 6 1\nPN 100\nBX 3 0\nNT 6 1\nKN 12\nGL -3 3 0 0\nGL 0 0 3 8\nBX 20 0\nBX 43 0\nPN -50\nNT 6 1\nBX 8 0\nNT 6 1\nGL 10 0 3 0\nKN 15\nBX 39 0\nBX 0 9\nEN\n",
    );
    check_whole(
        &rt,
        b"ST 40 2 8 3 2\nCL 1 30 0 0 5\nCL 2 100 5 100 5\nCL 3 60 0 100 5\nBX 0 0\nBX 10 5\nGL 10 10 0 0\nBX 1 9\nGL 0 3 0 2\nPN 10000\nPN 0\nPN 1842\nGL 5 0 2 8\nBX 10 0\nKN 12\nGL 2 10 0 0\nPN 0\nPN 9999\nGL 16 3 0 2\nKN -4\nBX 36 0\nGL 0 34 3 0\nBX 0 9\nBX 0 2\nPN 10000\nBX 10 0\nBX 1 9\nPN 10000\nKN -4\nKN -5\nGL 10 10 0 0\nGL 2 4 0 8\nBX 0 5\nBX 20 5\nBX 10 0\nBX 10 0\nKN 0\nBX 8 9\nBX 0 9\nGL 5 2 1 0\nBX 1 0\nBX 10 0\nBX 0 0\nPN -278\nBX 10 5\nBX 20 2\nBX 20 2\nBX 20 2\nBX 10 0\nBX 3 0\nBX 10 0\nBX 10 5\nGL 5 0 1 0\nKN 0\nPN 10000\nBX 1 0\nBX 0 0\nKN -12\nGL 10 3 3 2\nBX 48 5\nBX 1 5\nBX 59 9\nBX 3 5\nBX 10 0\nEN\n",
    );
    check_whole(
        &rt,
        b"ST 300 100 10 1 2\nCL 0 100 20 5000 2\nCL 3 10 5 10000 2\nCL 6 0 5 10000 5\nPN -9999\nGL -3 0 0 2\nNT 0 3\nBX 0 5\nBX 10 2\nKN 12\nPN -50\nGL 0 0 1 0\nBX 1 2\nGL -3 0 1 0\nNT 6 3\nKN 15\nBX 3 5\nPN -9999\nGL -3 3 3 8\nPN 9999\nGL -3 0 3 8\nNT 6 1\nPN 100\nGL 2 29 0 8\nNT 0 5\nBX 3 0\nBX 8 9\nBX 20 2\nBX 10 5\nPN -7230\nBX 38 0\nBX 3 5\nBX 38 0\nGL 10 0 0 0\nBX 0 9\nBX 0 9\nGL 0 3 1 8\nGL 5 10 2 0\nBX 1 9\nBX 1 5\nGL 0 0 1 0\nBX 1 0\nKN 0\nKN 5\nGL -3 14 0 0\nKN 12\nPN 9999\nBX 20 0\nBX 8 2\nBX 20 0\nBX 1 9\nBX 8 9\nBX 22 9\nBX 8 0\nGL 0 3 0 8\nGL 2 3 0 2\nKN 5\nGL 2 10 1 0\nBX 8 0\nBX 1 2\nGL 2 0 0 2\nBX 20 0\nBX 10 0\nNT 0 14\nKN 0\nGL 0 0 2 2\nBX 10 2\nPN 10000\nKN 12\nKN -4\nGL 0 5 0 0\nGL 5 0 3 0\nBX 1 9\nBX 20 0\nBX 24 5\nGL 18 10 0 2\nGL 2 3 0 2\nGL 0 3 3 2\nGL 2 3 0 0\nGL 5 3 0 8\nBX 0 5\nBX 3 0\nBX 3 0\nBX 47 0\nBX 1 9\nGL 0 28 2 0\nKN 0\nBX 31 0\nGL 10 0 0 8\nPN 0\nGL 0 35 0 0\nGL 0 10 1 0\nKN 12\nGL 0 10 2 0\nPN 10000\nPN 0\nKN -4\nBX 8 5\nGL 0 0 3 0\nBX 8 0\nBX 3 0\nPN -50\nNT 3 9\nGL 2 28 1 0\nBX 10 2\nPN 100\nBX 8 0\nBX 49 0\nGL 20 3 3 0\nGL 7 3 0 2\nBX 0 2\nBX 24 5\nBX 1 0\nBX 20 9\nBX 1 9\nBX 20 5\nGL 4 10 0 0\nGL 2 9 0 0\nGL 10 0 3 8\nGL 5 0 0 0\nBX 8 0\nKN 14\nBX 1 5\nGL 2 10 0 0\nBX 10 5\nBX 21 0\nGL 2 3 0 8\nBX 8 5\nGL -17 10 0 2\nBX 3 5\nBX 8 0\nBX 0 0\nBX 51 5\nGL 10 0 0 0\nBX 15 0\nBX 1 5\nGL 5 10 0 0\nNT 0 1\nGL 10 10 0 8\nGL 0 32 1 0\nBX 23 5\nGL 0 10 0 2\nBX 20 5\nBX 20 5\nBX 1 2\nGL 10 10 0 2\nBX 1 0\nGL 2 0 1 0\nGL 2 10 0 8\nKN 3\nBX 50 2\nKN 0\nBX 8 2\nBX 8 0\nBX 1 2\nPN 0\nBX 20 0\nPN -50\nBX 8 0\nGL -3 21 3 2\nGL 0 10 1 2\nBX 8 0\nGL 0 0 0 0\nBX 10 5\nBX 1 2\nGL 11 0 0 8\nBX 1 0\nBX 3 0\nBX 1 0\nBX 20 0\nBX 20 5\nGL 0 8 2 2\nBX 3 0\nBX 54 2\nKN -4\nPN -9999\nPN -9999\nBX 8 9\nBX 3 5\nBX 10 0\nKN 12\nNT 0 3\nBX 10 0\nBX 41 5\nBX 8 9\nGL 0 3 1 2\nGL 0 10 1 0\nBX 56 0\nBX 1 2\nBX 0 0\nPN -50\nBX 0 0\nPN 10000\nPN 100\nBX 8 9\nGL 20 25 1 0\nBX 3 5\nBX 0 0\nGL 2 0 3 0\nGL 0 10 0 2\nNT 6 2\nBX 1 0\nBX 10 0\nGL 2 0 2 0\nNT 3 3\nBX 10 0\nPN -10000\nKN 11\nKN 0\nGL 10 3 0 8\nBX 8 0\nBX 1 2\nBX 10 0\nGL 10 10 1 0\nKN 0\nBX 1 9\nBX 20 5\nGL -3 3 3 0\nBX 20 5\nPN 100\nBX 8 9\nGL 0 0 3 0\nKN 12\nBX 6 2\nKN -4\nGL 0 3 0 2\nBX 3 9\nBX 8 2\nGL 2 10 0 0\nBX 19 0\nBX 49 0\nPN 0\nBX 3 9\nPN 10000\nPN -9999\nGL 10 0 0 0\nKN 9\nNT 3 1\nPN -1298\nBX 3 0\nBX 3 9\nGL 7 3 3 0\nBX 15 0\nBX 20 0\nNT 6 1\nGL 0 21 0 8\nGL 10 0 0 0\nGL 5 3 3 0\nGL 0 0 1 8\nBX 1 0\nBX 50 2\nBX 20 0\nNT 6 1\nKN -4\nEN\n",
    );
    check_whole(
        &rt,
        b"ST 100 0 0 3 2\nCL 1 0 0 10000 5\nNT 1 1\nBX 3 9\nNT 1 9\nGL 0 0 0 8\nBX 17 0\nPN 10000\nGL 0 10 2 0\nBX 10 9\nBX 0 0\nBX 3 9\nGL 10 10 0 8\nKN 4\nBX 20 0\nNT 1 3\nBX 0 2\nBX 45 5\nKN 12\nKN 11\nNT 1 1\nGL 5 0 1 0\nNT 1 9\nKN 12\nPN 0\nBX 8 2\nBX 10 9\nGL 2 10 2 0\nGL 10 23 0 0\nGL 2 3 0 8\nBX 0 0\nBX 20 9\nEN\n",
    );
    check_whole(
        &rt,
        b"ST 300 5 30 100 2\nCL 0 30 5 0 50\nCL 1 0 0 10000 5\nCL 2 100 0 10 0\nCL 3 0 5 10 50\nCL 4 1073741823 5 100 2\nCL 5 100 0 5000 0\nCL 6 100 20 10000 5\nCL 7 60 20 10000 2\nPN 9999\nGL -3 3 2 0\nPN 100\nBX 3 0\nBX 0 0\nGL 10 19 0 0\nBX 8 5\nGL -3 10 0 2\nBX 20 5\nGL -3 3 0 2\nNT 0 5\nBX 25 9\nBX 0 0\nGL -3 0 0 2\nBX 8 0\nBX 32 5\nBX 1 5\nBX 1 5\nGL 5 0 0 0\nKN 12\nBX 10 2\nGL -7 38 0 0\nPN 0\nGL 10 10 3 2\nPN 10000\nBX 20 9\nGL 0 0 0 0\nGL 2 0 0 0\nGL 5 3 1 8\nNT 7 1\nBX 8 5\nNT 2 1\nGL 25 3 0 8\nBX 1 0\nBX 1 0\nNT 2 5\nBX 0 0\nKN -4\nKN 0\nGL 2 40 1 2\nPN -9999\nNT 2 5\nBX 10 0\nBX 1 2\nBX 20 9\nBX 15 0\nBX 0 0\nPN 10000\nGL 0 0 0 0\nKN 0\nGL 0 0 0 0\nBX 8 2\nGL 29 10 0 0\nBX 0 9\nBX 8 0\nNT 3 4\nGL 0 17 3 2\nBX 1 0\nKN -4\nBX 10 0\nEN\n",
    );
    check_whole(
        &rt,
        b"ST 60 5 0 3 2\nCL 7 60 5 5000 0\nNT 7 9\nPN -50\nGL 0 0 0 0\nBX 10 2\nBX 20 9\nGL 2 10 0 2\nBX 0 9\nBX 3 0\nBX 3 0\nKN -4\nBX 8 9\nBX 15 5\nNT 7 1\nGL 2 10 0 8\nNT 7 1\nKN 17\nBX 8 9\nNT 7 1\nGL -3 0 3 2\nNT 7 1\nBX 20 5\nBX 8 0\nNT 7 7\nGL 5 0 0 8\nBX 3 0\nBX 0 5\nGL 10 3 0 8\nBX 1 0\nGL 10 10 0 0\nKN 12\nEN\n",
    );
    check_whole(
        &rt,
        b"ST 1073741823 0 8 25 0\nCL 7 0 20 10000 5\nGL 24 0 3 8\nNT 7 2\nBX 8 0\nBX 20 0\nGL -3 0 1 8\nBX 10 0\nPN 10000\nPN 100\nKN 0\nPN -50\nGL 0 10 0 0\nNT 7 1\nBX 25 2\nNT 7 9\nBX 0 5\nBX 3 0\nGL -3 3 0 0\nGL 0 30 0 0\nBX 46 0\nKN 0\nGL 5 3 0 2\nBX 0 2\nBX 20 0\nNT 7 2\nBX 1 5\nKN 4\nBX 20 5\nKN 0\nNT 7 1\nBX 3 0\nEN\n",
    );
    check_whole(
        &rt,
        b"ST 100 5 0 1 2\nCL 7 0 5 10 50\nBX 0 5\nKN 12\nBX 10 0\nBX 1 5\nKN -4\nGL 10 3 0 0\nBX 3 0\nKN 12\nPN 10000\nBX 0 0\nBX 10 9\nBX 8 0\nBX 20 5\nBX 10 0\nGL 11 10 0 8\nGL -15 3 0 0\nGL 0 3 2 8\nPN 3876\nBX 3 2\nPN 100\nGL 5 0 1 2\nGL -3 20 0 2\nBX 23 0\nKN 0\nGL -3 0 0 8\nBX 20 9\nGL -3 0 0 0\nGL -3 10 1 8\nKN 12\nKN -4\nBX 10 9\nGL 0 3 0 2\nBX 21 0\nBX 10 2\nGL -3 29 2 0\nBX 3 2\nGL -3 0 1 2\nPN 10000\nPN 9657\nBX 0 0\nGL 10 12 1 8\nBX 20 9\nKN -4\nKN -4\nBX 10 2\nBX 3 2\nBX 1 9\nBX 0 0\nBX 3 0\nGL -3 0 0 2\nGL 17 0 2 0\nBX 20 0\nKN 0\nKN -4\nGL 2 3 0 2\nGL 0 22 0 2\nBX 10 0\nGL 2 0 0 0\nGL -3 10 0 0\nBX 11 9\nEN\n",
    );
    check_whole(
        &rt,
        b"ST 100 0 10 1 2\nCL 1 30 0 10000 5\nBX 3 0\nBX 8 9\nKN 12\nNT 1 2\nGL -7 0 3 0\nKN 12\nGL 0 0 1 8\nPN 0\nNT 1 5\nKN 0\nGL 10 3 1 2\nKN 4\nGL -3 31 0 2\nPN -10000\nBX 3 2\nGL -3 3 0 8\nPN -9046\nPN -9999\nNT 1 1\nBX 8 0\nGL 2 10 1 2\nNT 1 2\nBX 3 9\nPN -9999\nPN -50\nPN 100\nPN -10000\nBX 20 2\nBX 20 0\nPN 9999\nGL 2 0 3 8\nBX 1 2\nBX 8 2\nBX 0 2\nGL -3 10 3 0\nGL 30 0 0 0\nBX 10 2\nBX 53 0\nGL 10 3 0 2\nBX 0 0\nGL 2 0 0 2\nNT 1 3\nBX 2 9\nBX 10 9\nPN -10000\nNT 1 5\nBX 1 5\nBX 8 2\nBX 10 2\nBX 0 0\nBX 20 9\nPN 100\nGL 7 3 0 0\nBX 20 2\nBX 8 9\nPN -9999\nKN -4\nNT 1 9\nKN 5\nGL 0 0 0 2\nBX 8 2\nGL 10 2 0 0\nBX 3 0\nGL 29 10 3 0\nPN 50\nBX 20 0\nBX 43 2\nBX 20 5\nPN -9999\nBX 0 2\nPN -9999\nGL 0 0 3 8\nKN 0\nGL 0 34 3 0\nBX 0 2\nBX 1 0\nBX 2 5\nBX 27 2\nPN 50\nGL 2 0 3 2\nNT 1 2\nBX 8 0\nGL 0 10 0 8\nGL -7 0 1 0\nGL 2 1 2 0\nBX 1 9\nKN 4\nNT 1 3\nGL 2 0 3 8\nBX 1 9\nPN 100\nKN 22\nNT 1 2\nGL 10 0 0 8\nBX 1 0\nBX 8 2\nBX 3 0\nBX 45 0\nNT 1 2\nBX 4 0\nBX 10 0\nBX 3 9\nGL 15 34 0 2\nBX 20 2\nPN 100\nPN -10000\nNT 1 1\nPN 2571\nPN 0\nKN -4\nKN 4\nNT 1 14\nGL -3 10 0 2\nPN -50\nGL 5 0 3 8\nPN -10000\nGL -3 3 0 8\nBX 7 2\nBX 3 2\nGL 0 9 1 0\nBX 0 0\nGL 2 10 0 0\nGL 1 10 3 0\nKN -4\nPN 0\nBX 8 5\nBX 20 5\nNT 1 5\nBX 3 0\nBX 3 9\nBX 8 0\nKN -4\nPN 50\nNT 1 14\nKN -4\nBX 20 2\nBX 10 2\nBX 10 5\nBX 3 2\nGL 27 0 0 8\nGL 15 3 0 8\nKN -13\nBX 20 0\nKN -4\nBX 1 0\nPN -9999\nBX 0 0\nBX 10 2\nPN 6219\nNT 1 14\nBX 8 9\nBX 3 2\nGL -10 0 0 8\nBX 8 0\nGL 0 0 0 8\nPN 100\nGL 2 0 0 0\nBX 10 9\nBX 3 5\nBX 0 0\nPN 100\nBX 1 0\nBX 10 2\nPN 10000\nBX 8 0\nKN -9\nPN 10000\nGL 18 0 1 2\nPN -9999\nBX 1 2\nGL 0 10 3 0\nPN -9999\nBX 59 9\nPN 9999\nBX 10 0\nGL 0 3 0 0\nGL -3 0 0 0\nKN 12\nBX 10 5\nPN 100\nBX 20 5\nGL 10 0 1 0\nBX 3 2\nGL 11 38 2 0\nBX 8 9\nPN 10000\nKN 0\nGL -3 0 0 0\nBX 50 2\nGL -3 0 3 8\nPN 0\nGL 0 0 3 0\nBX 8 0\nKN 0\nBX 51 5\nPN 9999\nKN 7\nBX 6 5\nGL 7 3 1 2\nBX 8 5\nBX 10 0\nPN 0\nGL 0 10 0 0\nGL -3 0 0 2\nGL 5 3 1 2\nGL 2 3 2 2\nBX 20 0\nGL 2 0 0 8\nBX 1 0\nBX 10 9\nBX 20 9\nNT 1 2\nBX 1 2\nKN -4\nGL 0 0 0 0\nBX 10 0\nKN 4\nGL 10 0 0 0\nGL 10 3 0 0\nGL 10 3 0 0\nBX 20 5\nBX 1 0\nGL 5 0 1 0\nBX 0 0\nGL -3 0 0 0\nKN 5\nBX 8 5\nPN 9999\nBX 0 2\nNT 1 2\nBX 10 0\nBX 0 9\nGL 10 3 0 8\nNT 1 2\nBX 1 0\nGL -10 0 1 0\nGL 3 0 0 0\nPN 0\nBX 8 5\nGL 2 3 2 8\nBX 8 2\nBX 55 2\nGL 5 3 1 0\nBX 1 0\nBX 10 0\nGL -3 16 0 0\nBX 10 9\nBX 0 5\nGL 5 0 2 8\nNT 1 1\nBX 20 9\nEN\n",
    );
}

#[test]
fn texts_read_to_their_end_3(rt: HostRuntime) {
    check_whole(
        &rt,
        b"ST 40 2 30 1 0\nCL 0 100 0 0 5\nCL 1 10 5 5000 5\nCL 2 0 0 10000 2\nNT 2 5\nBX 20 2\nPN 0\nGL 2 0 0 8\nBX 8 0\nBX 8 0\nGL 0 10 0 2\nNT 0 9\nBX 8 5\nBX 0 0\nBX 3 2\nKN 0\nBX 1 0\nGL 0 0 3 2\nGL 0 10 2 0\nBX 23 0\nBX 8 0\nKN 0\nKN 0\nNT 2 5\nGL -2 3 0 2\nGL 25 0 0 0\nBX 3 0\nBX 0 2\nPN 0\nPN 10000\nNT 1 1\nBX 8 0\nNT 1 1\nPN -50\nGL -3 40 0 0\nBX 1 5\nNT 0 14\nGL 2 13 0 0\nGL -3 37 0 0\nPN 10000\nGL -13 10 0 2\nKN -4\nBX 20 5\nGL 0 10 3 8\nKN 0\nBX 3 0\nBX 0 9\nPN -10000\nBX 43 9\nBX 10 2\nGL -10 0 2 8\nNT 0 9\nKN -4\nBX 1 5\nBX 10 0\nGL 5 10 0 0\nGL 11 0 0 0\nGL 10 0 2 2\nPN 9999\nGL -8 0 0 2\nGL -8 0 0 2\nKN 0\nNT 0 2\nGL 10 22 0 2\nBX 0 9\nEN\n",
    );
    check_whole(
        &rt,
        b"ST 300 5 30 25 1\nCL 6 100 0 10000 2\nKN 4\nNT 6 14\nKN -4\nBX 20 9\nGL 2 3 0 2\nBX 1 2\nBX 10 0\nBX 8 0\nGL 0 10 0 8\nBX 10 0\nBX 10 9\nGL -16 0 0 0\nGL 5 0 0 8\nBX 3 2\nGL 2 0 2 0\nBX 10 2\nBX 3 9\nNT 6 2\nPN 0\nKN -4\nNT 6 5\nBX 0 0\nBX 8 5\nBX 10 0\nKN 0\nPN -50\nNT 6 3\nBX 0 5\nBX 20 5\nKN -4\nEN\n",
    );
    check_whole(
        &rt,
        b"ST 1073741823 5 30 25 2\nCL 4 30 0 10000 0\nBX 8 0\nBX 0 5\nPN 0\nBX 10 0\nGL -3 15 0 2\nGL -3 0 0 0\nNT 4 3\nGL -3 3 0 0\nBX 10 0\nGL 29 10 1 8\nNT 4 14\nGL -9 0 1 2\nGL 0 34 3 2\nGL -3 0 0 0\nBX 1 0\nGL 2 10 0 0\nBX 53 2\nPN 50\nPN 9999\nGL 0 10 0 2\nKN 4\nKN 15\nBX 20 2\nBX 20 5\nBX 10 0\nNT 4 14\nGL 14 0 0 8\nKN -4\nGL 0 0 1 0\nPN 10000\nGL 2 10 0 0\nBX 10 5\nPN -9999\nBX 3 2\nPN 9999\nBX 3 0\nGL 10 0 0 8\nBX 13 9\nGL 5 0 0 0\nBX 0 0\nNT 4 1\nBX 10 0\nNT 4 1\nBX 3 0\nGL 30 23 0 2\nPN 100\nBX 0 0\nNT 4 3\nBX 3 0\nKN -4\nGL 15 4 0 2\nNT 4 5\nGL 0 3 3 0\nGL 2 15 1 2\nKN -4\nGL 10 3 0 0\nGL 5 10 0 0\nBX 3 0\nBX 8 0\nBX 10 2\nKN 0\nGL 2 10 0 2\nBX 3 0\nNT 4 9\nPN 10000\nBX 3 0\nKN 0\nGL -3 10 0 0\nGL 2 3 0 2\nBX 3 2\nPN -50\nBX 20 2\nGL 17 33 0 0\nNT 4 5\nBX 1 0\nKN 4\nGL 10 10 1 2\nBX 3 2\nKN 4\nNT 4 5\nGL 5 10 0 2\nKN -4\nBX 20 5\nBX 1 0\nPN -9999\nBX 0 5\nNT 4 1\nBX 1 2\nBX 10 0\nNT 4 2\nBX 1 2\nKN 12\nNT 4 3\nGL -2 10 0 0\nBX 33 0\nBX 1 2\nBX 15 0\nGL 17 0 0 0\nBX 10 2\nGL 10 3 3 0\nBX 15 2\nGL 2 3 0 0\nGL 2 3 0 0\nNT 4 2\nGL 0 0 0 0\nKN 0\nGL 2 0 0 8\nNT 4 9\nBX 35 2\nGL -5 3 0 2\nGL 0 0 3 8\nGL 10 0 3 0\nGL -3 0 0 0\nGL -3 0 0 0\nPN -9999\nKN 16\nGL -3 10 0 2\nNT 4 1\nGL 10 0 0 2\nNT 4 1\nBX 0 5\nEN\n",
    );
    check_whole(
        &rt,
        b"ST 100 100 10 1 2\nCL 0 1073741823 5 10 2\nCL 1 1073741823 20 10000 5\nCL 2 10 5 10000 50\nCL 3 100 0 10000 2\nCL 4 10 0 0 0\nCL 5 1073741823 20 10000 0\nCL 6 0 5 100 5\nCL 7 60 20 0 5\nBX 0 9\nGL 10 20 0 8\nBX 1 2\nNT 5 2\nBX 49 2\nBX 8 0\nPN -50\nBX 10 5\nBX 3 2\nGL 5 3 2 2\nGL 2 0 0 0\nBX 46 5\nNT 4 1\nBX 25 5\nBX 46 0\nPN 0\nNT 6 5\nGL 10 3 0 8\nGL 5 10 3 0\nKN -6\nBX 20 2\nKN 12\nNT 3 3\nBX 20 0\nBX 1 9\nBX 20 2\nBX 3 5\nBX 10 5\nKN 4\nBX 3 2\nBX 10 2\nBX 10 0\nPN 0\nBX 22 0\nNT 0 9\nGL -3 10 0 8\nGL -3 10 0 2\nGL 10 10 3 8\nGL -3 3 2 0\nGL 5 0 0 0\nBX 20 5\nGL 5 0 3 2\nBX 10 2\nBX 39 5\nBX 1 5\nNT 5 5\nBX 20 0\nKN 12\nBX 20 0\nGL 10 0 0 8\nKN 4\nPN -9999\nGL 29 0 3 8\nBX 1 2\nNT 1 2\nKN 4\nBX 1 0\nGL 1 0 3 0\nNT 1 1\nBX 1 2\nGL -3 8 0 8\nNT 3 1\nBX 20 0\nGL 10 3 0 8\nBX 20 0\nNT 7 3\nKN -4\nBX 0 9\nBX 8 5\nNT 0 9\nGL -3 0 0 0\nPN 100\nGL -3 15 2 8\nKN -3\nBX 1 5\nBX 1 0\nGL 5 0 3 0\nPN 9999\nBX 20 2\nBX 1 9\nNT 6 1\nPN 100\nKN 4\nBX 10 9\nNT 7 9\nBX 0 9\nBX 20 0\nGL 5 10 0 0\nBX 10 2\nBX 0 0\nGL -13 10 0 2\nBX 3 2\nBX 1 5\nKN 12\nGL 0 3 0 8\nNT 7 1\nGL 5 10 0 0\nNT 3 2\nBX 1 0\nBX 8 5\nNT 4 2\nBX 10 0\nPN -10000\nNT 0 3\nGL 23 0 1 0\nGL -3 10 0 0\nBX 10 5\nBX 0 2\nNT 0 9\nGL 10 0 0 0\nGL 0 0 0 8\nBX 59 2\nBX 0 5\nPN -10000\nGL 0 0 3 0\nGL 10 0 0 0\nGL 15 0 2 0\nGL 15 0 2 0\nKN 12\nGL 10 34 0 0\nPN 0\nEN\n",
    );
    check_whole(
        &rt,
        b"ST 40 100 0 2 2\nCL 4 30 20 5000 50\nKN -4\nPN 0\nNT 4 14\nGL 10 0 0 0\nBX 0 5\nGL 2 0 3 2\nGL 2 0 1 0\nKN 4\nBX 0 5\nBX 3 9\nGL -3 0 0 8\nBX 10 9\nBX 1 9\nKN 0\nBX 20 5\nPN 9999\nBX 20 0\nBX 1 0\nKN 0\nNT 4 14\nBX 10 9\nBX 3 0\nPN 9999\nBX 8 5\nGL 10 0 0 2\nGL 10 5 2 8\nBX 8 0\nBX 1 0\nPN 8941\nBX 0 9\nBX 3 9\nGL -20 0 3 2\nGL 5 10 0 0\nKN 10\nNT 4 1\nPN -50\nBX 11 2\nGL 5 0 0 0\nBX 20 5\nKN 0\nNT 4 14\nGL -3 3 1 0\nKN 12\nPN 9999\nBX 0 5\nGL 0 0 2 0\nBX 10 0\nKN -4\nPN 50\nPN 0\nPN 9999\nPN 10000\nGL 0 3 0 8\nKN 12\nGL 5 3 2 2\nBX 1 0\nKN 12\nNT 4 2\nBX 3 0\nGL 10 0 0 0\nEN\n",
    );
    check_whole(
        &rt,
        b"ST 150 100 10 2 1\nCL 3 0 0 5000 2\nBX 10 0\nPN 0\nGL 5 0 2 0\nPN 0\nGL 5 0 0 0\nNT 3 1\nKN 0\nBX 10 0\nNT 3 1\nBX 1 0\nEN\n",
    );
    check_whole(&rt, b"ST 100 5 10 25 1\nEN\n");
    check_whole(&rt, b"ST 100 5 10 25 1\nNT 0 1\nBX 1 1\nEN\n");
    check_whole(&rt, b"ST 100 5 10 25 1\nCL 0 60 5 100 5\nNT 0 0\nEN\n");
    check_whole(&rt, b"ST 100 5 10 25 1\nCL 0 60 5 100 5\nNT 1 0\nEN\n");
}

#[test]
fn texts_read_to_their_end_4(rt: HostRuntime) {
    check_whole(
        &rt,
        b"ST 100 5 10 25 1\nCL 0 60 5 100 5\nNT 1 2\nNT 0 1\nGL 1 1 9 1\nEN\n",
    );
    check_whole(
        &rt,
        b"ST 100 5 10 25 1\nCL 0 60 5 100 5\nBX 1 1\nNT 0 3\nGL 1 1 9 1\nBX 1 1\nNT 0 1\nEN\n",
    );
    check_whole(
        &rt,
        b"ST 100 5 10 25 1\nCL 0 60 5 100 5\nBX 1 1\nNT 0 3\nBX 1 1\nPN 10001\nGL 1 1 9 1\nEN\n",
    );
    check_whole(&rt, b"ST 100 5 10 25 1\nGL 0 0 4 0\nEN\n");
    check_whole(&rt, b"ST 100 5 10 25 1\nPN -10001\nEN\n");
    check_whole(&rt, b"ST 100 5 10 25 1\nKN -1073741823\nEN\n");
    check_whole(&rt, b"ST 1 0 0 1 0\nEN\n");
    check_whole(
        &rt,
        b"ST 1073741823 1073741823 1073741823 100 2\nCL 7 1073741823 1073741823 10000 1073741823\nBX 1073741823 1073741823\nNT 7 2\nBX 1073741823 1073741823\nGL -1073741823 1073741823 3 1073741823\nEN\n",
    );
}
