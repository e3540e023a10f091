//! Two scripts with what they write, in the notation of [`spelled`].
//!
//! [`spelled`]: lgm_test_scripts::spelled

/// A script with its text.
#[derive(Clone, Copy)]
pub struct Example {
    pub script: &'static str,
    pub text: &'static str,
}

/// The second channel's fee and delta, and not the first one's.
pub const FEES: Example = Example {
    script: "m ca(600000x0x0,A,B) all 100000\n\
        m ca(600000x1x0,B,C) all 100000\n\
        m cu(600000x0x0,0,1,delta=10) A -\n\
        m cu(600000x1x0,0,1,delta=20,base=200,millionths=2000) B -\n\
        commit\n\
        route A C 4999999 700009 S\n",
    text: "1 accepted\n\
        2 accepted\n\
        3 accepted\n\
        4 accepted\n\
        5 commit 4\n\
        6 route 5010198 700029 2\n\
        6 hop 600000x0x0 [14 02034c4b3f 04030aae69 0608 0927c00000010000]\n\
        6 hop 600000x1x0 [2f 02034c4b3f 04030aae69 0823 S 4c4b3f]\n",
};

/// A repeated id is answered again, a node's announcement comes once, and a malformed query gets its word.
pub const IDS: Example = Example {
    script: "m ca(1x0x0,A,B) all 100000\n\
        m ca(2x0x0,B,C) all 100000\n\
        m na(B,5) B -\n\
        commit\n\
        q [0105 H 0021 00 0000010000000000 0000090000000000 0000020000000000 0000010000000000]\n\
        q [0105 H 0021 00 0000010000000000 0000090000000000 0000020000000000 0000010000000000 0104001f1f1f]\n\
        filter 7 [0109 H 00000005 00000001]\n\
        close 1x0x0\n\
        m na(B,6) B -\n\
        close 2x0x0\n\
        m na(B,7) B -\n\
        commit\n\
        q [0105 H 0021 00 0000010000000000 0000090000000000 0000020000000000 0000010000000000]\n",
    text: "1 accepted\n\
        2 accepted\n\
        3 accepted\n\
        4 commit 3\n\
        5 ca(1x0x0,A,B)\n\
        5 na(B,5)\n\
        5 ca(2x0x0,B,C)\n\
        5 ca(1x0x0,A,B)\n\
        5 [0106 H 01]\n\
        6 malformed\n\
        7 filter\n\
        7 to 7 na(B,5)\n\
        8 accepted\n\
        9 accepted\n\
        10 accepted\n\
        11 unknown-node\n\
        12 commit 6\n\
        13 [0106 H 01]\n",
};
