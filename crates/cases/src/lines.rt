// Sheets and the report on each, as tables.
use sheet::report::report;
use std::process::Abort;
use std::test::Fail;

// A sheet, and what a check of it writes.
struct Case {
    sheet: &'static [u8],
    says: &'static str,
}

const LINES_AND_COMMENTS: [Case; 23] = [
    Case {
        sheet: b"(house 1 series)",
        says: "(house 1 series)\n",
    },
    Case {
        sheet: b"(house 1 series)\n",
        says: "(house 1 series)\n",
    },
    Case {
        sheet: b"(house 1 series)\n\n\n   \n",
        says: "(house 1 series)\n",
    },
    Case {
        sheet: b"\n  \n;\n(house 1 series)\n;",
        says: "(house 1 series)\n",
    },
    Case {
        sheet: b"(house 1 series)\n  ; (not a form",
        says: "(house 1 series)\n",
    },
    Case {
        sheet: b"(house 1 series)\n;\x00\xff\t(\r;\n;",
        says: "(house 1 series)\n",
    },
    Case {
        sheet: b" ( house 1 series ) ",
        says: "(house 1 series)\n",
    },
    Case {
        sheet: b"(house 1 series)\r\n",
        says: "(unread 21 1)\n; line 1, column 17: expected the end of the line, found a byte that no form has\n",
    },
    Case {
        sheet: b"(house 1 series)\n\t",
        says: "(unread 21 2)\n; line 2, column 1: expected a form or a comment, found a byte that no form has\n",
    },
    Case {
        sheet: b"(house 1 series)\n(halt (at 1)) ;",
        says: "(unread 21 2)\n; line 2, column 15: expected the end of the line, found a byte that no form has\n",
    },
    Case {
        sheet: b"(house 1 series)\n(halt (at 1)) (halt (at 1))",
        says: "(unread 21 2)\n; line 2, column 15: expected the end of the line, found an opening bracket\n",
    },
    Case {
        sheet: b"(house 1 series)\n(halt (at 1)) x",
        says: "(unread 21 2)\n; line 2, column 15: expected the end of the line, found another word\n",
    },
    Case {
        sheet: b"(house 1 series)\n(halt (at 1)))",
        says: "(unread 21 2)\n; line 2, column 14: expected the end of the line, found a closing bracket\n",
    },
    Case {
        sheet: b"(house 1 series)\nhalt",
        says: "(unread 21 2)\n; line 2, column 1: expected a form or a comment, found another word\n",
    },
    Case {
        sheet: b"(house 1 series)\n)",
        says: "(unread 21 2)\n; line 2, column 1: expected a form or a comment, found a closing bracket\n",
    },
    Case {
        sheet: b"(house 1 series)\n(",
        says: "(unread 21 2)\n; line 2, column 2: expected the name of a form, found the end of the line\n",
    },
    Case {
        sheet: b"(house 1 series)\n()",
        says: "(unread 21 2)\n; line 2, column 2: expected the name of a form, found a closing bracket\n",
    },
    Case {
        sheet: b"(house 1 series)\n((halt",
        says: "(unread 21 2)\n; line 2, column 2: expected the name of a form, found an opening bracket\n",
    },
    Case {
        sheet: b"(house 1 series)\n(Halt (at 1))",
        says: "(unread 21 2)\n; line 2, column 2: expected the name of a form, found a byte that no form has\n",
    },
    Case {
        sheet: b"(house 1 series)\n(stop (at 1))",
        says: "(unread 21 2)\n; line 2, column 2: expected the name of a form, found another word\n",
    },
    Case {
        sheet: b"(house 1 series)\n(halt\t(at 1))",
        says: "(unread 21 2)\n; line 2, column 6: expected an opening bracket, found a byte that no form has\n",
    },
    Case {
        sheet: b"(house 1 series)\n(abcdefghijklmnopq (at 1))",
        says: "(unread 21 2)\n; line 2, column 2: expected the name of a form, found a word of over 16 bytes\n",
    },
    Case {
        sheet: b"(house 1 series)\n(abcdefghijklmnop (at 1))",
        says: "(unread 21 2)\n; line 2, column 2: expected the name of a form, found another word\n",
    },
];

const EVERY_FORM: [Case; 18] = [
    Case {
        sheet: b"(house 1 series)\n(rest 1 buy 101 10 customer)",
        says: "(house 1 series)\n(rest 1 buy 101 10 customer)\n",
    },
    Case {
        sheet: b"(house 1 series)\n( rest 1 sell -101 10 other )",
        says: "(house 1 series)\n(rest 1 sell -101 10 other)\n",
    },
    Case {
        sheet: b"(house 1 series)\n(away buy 5)",
        says: "(house 1 series)\n(away buy 5)\n",
    },
    Case {
        sheet: b"(house 1 series)\n(away sell 0)",
        says: "(house 1 series)\n(away sell 0)\n",
    },
    Case {
        sheet: b"(house 1 series)\n(enter block sell 50 100(reserve 0)(time 100)(at 0))",
        says: "(house 1 series)\n(enter block sell 50 100 (reserve 0) (time 100) (at 0))\n",
    },
    Case {
        sheet: b"(house 1 series)\n(enter fac buy 50 100 (reserve 40) (time 100) (at 7))",
        says: "(house 1 series)\n(enter fac buy 50 100 (reserve 40) (time 100) (at 7))\n",
    },
    Case {
        sheet: b"(house 1 series)\n(enter sol sell 500 -3 ( reserve 0 ) ( time 1000 ) ( at 9 ) )",
        says: "(house 1 series)\n(enter sol sell 500 -3 (reserve 0) (time 1000) (at 9))\n",
    },
    Case {
        sheet: b"(house 1 series)\n(respond 1 1 100 60 other (at 10))",
        says: "(house 1 series)\n(respond 1 1 100 60 other (at 10))\n",
    },
    Case {
        sheet: b"(house 1 series)\n(amend 16 4 -100 60 customer(at 10))",
        says: "(house 1 series)\n(amend 16 4 -100 60 customer (at 10))\n",
    },
    Case {
        sheet: b"(house 1 series)\n(delete 1 1 (at 10))",
        says: "(house 1 series)\n(delete 1 1 (at 10))\n",
    },
    Case {
        sheet: b"(house 1 series)\n(settle (at 10))",
        says: "(house 1 series)\n(settle (at 10))\n",
    },
    Case {
        sheet: b"(house 1 series)\n(halt(at 10))",
        says: "(house 1 series)\n(halt (at 10))\n",
    },
    Case {
        sheet: b"(house 1 series)\n(quote 1 bid 25 (10 20 30))",
        says: "(house 1 series)\n(quote 1 bid 25 (10 20 30))\n",
    },
    Case {
        sheet: b"(house 1 series)\n(quote 4 offer 25())",
        says: "(house 1 series)\n(quote 4 offer 25 ())\n",
    },
    Case {
        sheet: b"(house 1 series)\n(quote 9 bid 1 (1 2 3 4 5 6 7 8 9))",
        says: "(house 1 series)\n(quote 9 bid 1 (1 2 3 4 5 6 7 8 9))\n",
    },
    Case {
        sheet: b"(house 7 net)",
        says: "(house 7 net)\n",
    },
    Case {
        sheet: b"(house 7 net(buy 1)(sell 2))",
        says: "(house 7 net (buy 1) (sell 2))\n",
    },
    Case {
        sheet: b"(house -9 net (buy 1) (sell 2) (sell 3) (buy 4) (buy 55))",
        says: "(house -9 net (buy 1) (sell 2) (sell 3) (buy 4) (buy 55))\n",
    },
];

const NUMBERS_AT_EACH_EDGE: [Case; 22] = [
    Case {
        sheet: b"(house 1 series)\n(settle (at 0))",
        says: "(house 1 series)\n(settle (at 0))\n",
    },
    Case {
        sheet: b"(house 1 series)\n(settle (at 1))",
        says: "(house 1 series)\n(settle (at 1))\n",
    },
    Case {
        sheet: b"(house 1 series)\n(settle (at 9))",
        says: "(house 1 series)\n(settle (at 9))\n",
    },
    Case {
        sheet: b"(house 1 series)\n(settle (at -1))",
        says: "(house 1 series)\n(settle (at -1))\n",
    },
    Case {
        sheet: b"(house 1 series)\n(settle (at -9))",
        says: "(house 1 series)\n(settle (at -9))\n",
    },
    Case {
        sheet: b"(house 1 series)\n(settle (at 10))",
        says: "(house 1 series)\n(settle (at 10))\n",
    },
    Case {
        sheet: b"(house 1 series)\n(settle (at 1000000000000))",
        says: "(house 1 series)\n(settle (at 1000000000000))\n",
    },
    Case {
        sheet: b"(house 1 series)\n(settle (at 9999999999999))",
        says: "(house 1 series)\n(settle (at 9999999999999))\n",
    },
    Case {
        sheet: b"(house 1 series)\n(settle (at -9999999999999))",
        says: "(house 1 series)\n(settle (at -9999999999999))\n",
    },
    Case {
        sheet: b"(house 1 series)\n(settle (at 00))",
        says: "(unread 21 2)\n; line 2, column 13: expected a number, found another word\n",
    },
    Case {
        sheet: b"(house 1 series)\n(settle (at 01))",
        says: "(unread 21 2)\n; line 2, column 13: expected a number, found another word\n",
    },
    Case {
        sheet: b"(house 1 series)\n(settle (at -0))",
        says: "(unread 21 2)\n; line 2, column 13: expected a number, found another word\n",
    },
    Case {
        sheet: b"(house 1 series)\n(settle (at -01))",
        says: "(unread 21 2)\n; line 2, column 13: expected a number, found another word\n",
    },
    Case {
        sheet: b"(house 1 series)\n(settle (at --1))",
        says: "(unread 21 2)\n; line 2, column 13: expected a number, found another word\n",
    },
    Case {
        sheet: b"(house 1 series)\n(settle (at -))",
        says: "(unread 21 2)\n; line 2, column 13: expected a number, found another word\n",
    },
    Case {
        sheet: b"(house 1 series)\n(settle (at 1-))",
        says: "(unread 21 2)\n; line 2, column 13: expected a number, found another word\n",
    },
    Case {
        sheet: b"(house 1 series)\n(settle (at 1a))",
        says: "(unread 21 2)\n; line 2, column 13: expected a number, found another word\n",
    },
    Case {
        sheet: b"(house 1 series)\n(settle (at 10000000000000))",
        says: "(unread 21 2)\n; line 2, column 13: expected a number, found another word\n",
    },
    Case {
        sheet: b"(house 1 series)\n(settle (at -10000000000000))",
        says: "(unread 21 2)\n; line 2, column 13: expected a number, found another word\n",
    },
    Case {
        sheet: b"(house 1 series)\n(settle (at +1))",
        says: "(unread 21 2)\n; line 2, column 13: expected a number, found a byte that no form has\n",
    },
    Case {
        sheet: b"(house 1 series)\n(settle (at 1.5))",
        says: "(unread 21 2)\n; line 2, column 14: expected a closing bracket, found a byte that no form has\n",
    },
    Case {
        sheet: b"(house 1 series)\n(settle (at 12345678901234567))",
        says: "(unread 21 2)\n; line 2, column 13: expected a number, found a word of over 16 bytes\n",
    },
];

const EVERY_WORD_WRONG_ONCE: [Case; 61] = [
    Case {
        sheet: b"(house 1 series)\n(x 1 buy 101 10 other)",
        says: "(unread 21 2)\n; line 2, column 2: expected the name of a form, found another word\n",
    },
    Case {
        sheet: b"(house 1 series)\n(rest x buy 101 10 other)",
        says: "(unread 21 2)\n; line 2, column 7: expected a number, found another word\n",
    },
    Case {
        sheet: b"(house 1 series)\n(rest 1 x 101 10 other)",
        says: "(unread 21 2)\n; line 2, column 9: expected buy or sell, found another word\n",
    },
    Case {
        sheet: b"(house 1 series)\n(rest 1 buy x 10 other)",
        says: "(unread 21 2)\n; line 2, column 13: expected a number, found another word\n",
    },
    Case {
        sheet: b"(house 1 series)\n(rest 1 buy 101 x other)",
        says: "(unread 21 2)\n; line 2, column 17: expected a number, found another word\n",
    },
    Case {
        sheet: b"(house 1 series)\n(rest 1 buy 101 10 x)",
        says: "(unread 21 2)\n; line 2, column 20: expected customer or other, found another word\n",
    },
    Case {
        sheet: b"(house 1 series)\n(x sell 5)",
        says: "(unread 21 2)\n; line 2, column 2: expected the name of a form, found another word\n",
    },
    Case {
        sheet: b"(house 1 series)\n(away x 5)",
        says: "(unread 21 2)\n; line 2, column 7: expected buy or sell, found another word\n",
    },
    Case {
        sheet: b"(house 1 series)\n(away sell x)",
        says: "(unread 21 2)\n; line 2, column 12: expected a number, found another word\n",
    },
    Case {
        sheet: b"(house 1 series)\n(x fac sell 100 100 (reserve 40) (time 100) (at 0))",
        says: "(unread 21 2)\n; line 2, column 2: expected the name of a form, found another word\n",
    },
    Case {
        sheet: b"(house 1 series)\n(enter x sell 100 100 (reserve 40) (time 100) (at 0))",
        says: "(unread 21 2)\n; line 2, column 8: expected block, fac or sol, found another word\n",
    },
    Case {
        sheet: b"(house 1 series)\n(enter fac x 100 100 (reserve 40) (time 100) (at 0))",
        says: "(unread 21 2)\n; line 2, column 12: expected buy or sell, found another word\n",
    },
    Case {
        sheet: b"(house 1 series)\n(enter fac sell x 100 (reserve 40) (time 100) (at 0))",
        says: "(unread 21 2)\n; line 2, column 17: expected a number, found another word\n",
    },
    Case {
        sheet: b"(house 1 series)\n(enter fac sell 100 x (reserve 40) (time 100) (at 0))",
        says: "(unread 21 2)\n; line 2, column 21: expected a number, found another word\n",
    },
    Case {
        sheet: b"(house 1 series)\n(enter fac sell 100 100 (x 40) (time 100) (at 0))",
        says: "(unread 21 2)\n; line 2, column 26: expected the word reserve, found another word\n",
    },
    Case {
        sheet: b"(house 1 series)\n(enter fac sell 100 100 (reserve x) (time 100) (at 0))",
        says: "(unread 21 2)\n; line 2, column 34: expected a number, found another word\n",
    },
    Case {
        sheet: b"(house 1 series)\n(enter fac sell 100 100 (reserve 40) (x 100) (at 0))",
        says: "(unread 21 2)\n; line 2, column 39: expected the word time, found another word\n",
    },
    Case {
        sheet: b"(house 1 series)\n(enter fac sell 100 100 (reserve 40) (time x) (at 0))",
        says: "(unread 21 2)\n; line 2, column 44: expected a number, found another word\n",
    },
    Case {
        sheet: b"(house 1 series)\n(enter fac sell 100 100 (reserve 40) (time 100) (x 0))",
        says: "(unread 21 2)\n; line 2, column 50: expected the word at, found another word\n",
    },
    Case {
        sheet: b"(house 1 series)\n(enter fac sell 100 100 (reserve 40) (time 100) (at x))",
        says: "(unread 21 2)\n; line 2, column 53: expected a number, found another word\n",
    },
    Case {
        sheet: b"(house 1 series)\n(x 1 1 100 60 other (at 10))",
        says: "(unread 21 2)\n; line 2, column 2: expected the name of a form, found another word\n",
    },
    Case {
        sheet: b"(house 1 series)\n(respond x 1 100 60 other (at 10))",
        says: "(unread 21 2)\n; line 2, column 10: expected a number, found another word\n",
    },
    Case {
        sheet: b"(house 1 series)\n(respond 1 x 100 60 other (at 10))",
        says: "(unread 21 2)\n; line 2, column 12: expected a number, found another word\n",
    },
    Case {
        sheet: b"(house 1 series)\n(respond 1 1 x 60 other (at 10))",
        says: "(unread 21 2)\n; line 2, column 14: expected a number, found another word\n",
    },
    Case {
        sheet: b"(house 1 series)\n(respond 1 1 100 x other (at 10))",
        says: "(unread 21 2)\n; line 2, column 18: expected a number, found another word\n",
    },
    Case {
        sheet: b"(house 1 series)\n(respond 1 1 100 60 x (at 10))",
        says: "(unread 21 2)\n; line 2, column 21: expected customer or other, found another word\n",
    },
    Case {
        sheet: b"(house 1 series)\n(respond 1 1 100 60 other (x 10))",
        says: "(unread 21 2)\n; line 2, column 28: expected the word at, found another word\n",
    },
    Case {
        sheet: b"(house 1 series)\n(respond 1 1 100 60 other (at x))",
        says: "(unread 21 2)\n; line 2, column 31: expected a number, found another word\n",
    },
    Case {
        sheet: b"(house 1 series)\n(x 1 1 100 60 other (at 10))",
        says: "(unread 21 2)\n; line 2, column 2: expected the name of a form, found another word\n",
    },
    Case {
        sheet: b"(house 1 series)\n(amend x 1 100 60 other (at 10))",
        says: "(unread 21 2)\n; line 2, column 8: expected a number, found another word\n",
    },
    Case {
        sheet: b"(house 1 series)\n(amend 1 x 100 60 other (at 10))",
        says: "(unread 21 2)\n; line 2, column 10: expected a number, found another word\n",
    },
    Case {
        sheet: b"(house 1 series)\n(amend 1 1 x 60 other (at 10))",
        says: "(unread 21 2)\n; line 2, column 12: expected a number, found another word\n",
    },
    Case {
        sheet: b"(house 1 series)\n(amend 1 1 100 x other (at 10))",
        says: "(unread 21 2)\n; line 2, column 16: expected a number, found another word\n",
    },
    Case {
        sheet: b"(house 1 series)\n(amend 1 1 100 60 x (at 10))",
        says: "(unread 21 2)\n; line 2, column 19: expected customer or other, found another word\n",
    },
    Case {
        sheet: b"(house 1 series)\n(amend 1 1 100 60 other (x 10))",
        says: "(unread 21 2)\n; line 2, column 26: expected the word at, found another word\n",
    },
    Case {
        sheet: b"(house 1 series)\n(amend 1 1 100 60 other (at x))",
        says: "(unread 21 2)\n; line 2, column 29: expected a number, found another word\n",
    },
    Case {
        sheet: b"(house 1 series)\n(x 1 1 (at 10))",
        says: "(unread 21 2)\n; line 2, column 2: expected the name of a form, found another word\n",
    },
    Case {
        sheet: b"(house 1 series)\n(delete x 1 (at 10))",
        says: "(unread 21 2)\n; line 2, column 9: expected a number, found another word\n",
    },
    Case {
        sheet: b"(house 1 series)\n(delete 1 x (at 10))",
        says: "(unread 21 2)\n; line 2, column 11: expected a number, found another word\n",
    },
    Case {
        sheet: b"(house 1 series)\n(delete 1 1 (x 10))",
        says: "(unread 21 2)\n; line 2, column 14: expected the word at, found another word\n",
    },
    Case {
        sheet: b"(house 1 series)\n(delete 1 1 (at x))",
        says: "(unread 21 2)\n; line 2, column 17: expected a number, found another word\n",
    },
    Case {
        sheet: b"(house 1 series)\n(x (at 10))",
        says: "(unread 21 2)\n; line 2, column 2: expected the name of a form, found another word\n",
    },
    Case {
        sheet: b"(house 1 series)\n(settle (x 10))",
        says: "(unread 21 2)\n; line 2, column 10: expected the word at, found another word\n",
    },
    Case {
        sheet: b"(house 1 series)\n(settle (at x))",
        says: "(unread 21 2)\n; line 2, column 13: expected a number, found another word\n",
    },
    Case {
        sheet: b"(house 1 series)\n(x (at 10))",
        says: "(unread 21 2)\n; line 2, column 2: expected the name of a form, found another word\n",
    },
    Case {
        sheet: b"(house 1 series)\n(halt (x 10))",
        says: "(unread 21 2)\n; line 2, column 8: expected the word at, found another word\n",
    },
    Case {
        sheet: b"(house 1 series)\n(halt (at x))",
        says: "(unread 21 2)\n; line 2, column 11: expected a number, found another word\n",
    },
    Case {
        sheet: b"(house 1 series)\n(x 1 bid 25 (10 20))",
        says: "(unread 21 2)\n; line 2, column 2: expected the name of a form, found another word\n",
    },
    Case {
        sheet: b"(house 1 series)\n(quote x bid 25 (10 20))",
        says: "(unread 21 2)\n; line 2, column 8: expected a number, found another word\n",
    },
    Case {
        sheet: b"(house 1 series)\n(quote 1 x 25 (10 20))",
        says: "(unread 21 2)\n; line 2, column 10: expected bid or offer, found another word\n",
    },
    Case {
        sheet: b"(house 1 series)\n(quote 1 bid x (10 20))",
        says: "(unread 21 2)\n; line 2, column 14: expected a number, found another word\n",
    },
    Case {
        sheet: b"(house 1 series)\n(quote 1 bid 25 (x 20))",
        says: "(unread 21 2)\n; line 2, column 18: expected a size or a closing bracket, found another word\n",
    },
    Case {
        sheet: b"(house 1 series)\n(quote 1 bid 25 (10 x))",
        says: "(unread 21 2)\n; line 2, column 21: expected a size or a closing bracket, found another word\n",
    },
    Case {
        sheet: b"(house 1 series)\n(x 1 series)",
        says: "(unread 21 2)\n; line 2, column 2: expected the name of a form, found another word\n",
    },
    Case {
        sheet: b"(house 1 series)\n(house x series)",
        says: "(unread 21 2)\n; line 2, column 8: expected a number, found another word\n",
    },
    Case {
        sheet: b"(house 1 series)\n(house 1 x)",
        says: "(unread 21 2)\n; line 2, column 10: expected series or net, found another word\n",
    },
    Case {
        sheet: b"(house 1 series)\n(x 1 net (buy 1))",
        says: "(unread 21 2)\n; line 2, column 2: expected the name of a form, found another word\n",
    },
    Case {
        sheet: b"(house 1 series)\n(house x net (buy 1))",
        says: "(unread 21 2)\n; line 2, column 8: expected a number, found another word\n",
    },
    Case {
        sheet: b"(house 1 series)\n(house 1 x (buy 1))",
        says: "(unread 21 2)\n; line 2, column 10: expected series or net, found another word\n",
    },
    Case {
        sheet: b"(house 1 series)\n(house 1 net (x 1))",
        says: "(unread 21 2)\n; line 2, column 15: expected buy or sell, found another word\n",
    },
    Case {
        sheet: b"(house 1 series)\n(house 1 net (buy x))",
        says: "(unread 21 2)\n; line 2, column 19: expected a number, found another word\n",
    },
];

const BRACKETS_AND_LISTS: [Case; 17] = [
    Case {
        sheet: b"(house 1 series)\n(settle at 10)",
        says: "(unread 21 2)\n; line 2, column 9: expected an opening bracket, found another word\n",
    },
    Case {
        sheet: b"(house 1 series)\n(settle (at 10)",
        says: "(unread 21 2)\n; line 2, column 16: expected a closing bracket, found the end of the line\n",
    },
    Case {
        sheet: b"(house 1 series)\n(settle (at 10",
        says: "(unread 21 2)\n; line 2, column 15: expected a closing bracket, found the end of the line\n",
    },
    Case {
        sheet: b"(house 1 series)\n(settle)",
        says: "(unread 21 2)\n; line 2, column 8: expected an opening bracket, found a closing bracket\n",
    },
    Case {
        sheet: b"(house 1 series)\n(settle (at 10) 1)",
        says: "(unread 21 2)\n; line 2, column 17: expected a closing bracket, found another word\n",
    },
    Case {
        sheet: b"(house 1 series)\n(settle (at 10) (at 10))",
        says: "(unread 21 2)\n; line 2, column 17: expected a closing bracket, found an opening bracket\n",
    },
    Case {
        sheet: b"(house 1 series)\n(settle ((at 10)))",
        says: "(unread 21 2)\n; line 2, column 10: expected the word at, found an opening bracket\n",
    },
    Case {
        sheet: b"(house 1 series)\n(enter fac sell 100 100 (time 100) (reserve 40) (at 0))",
        says: "(unread 21 2)\n; line 2, column 26: expected the word reserve, found another word\n",
    },
    Case {
        sheet: b"(house 1 series)\n(enter fac sell 100 100 (reserve 40) (time 100))",
        says: "(unread 21 2)\n; line 2, column 48: expected an opening bracket, found a closing bracket\n",
    },
    Case {
        sheet: b"(house 1 series)\n(quote 1 bid 25 10)",
        says: "(unread 21 2)\n; line 2, column 17: expected an opening bracket, found another word\n",
    },
    Case {
        sheet: b"(house 1 series)\n(quote 1 bid 25 ((10)))",
        says: "(unread 21 2)\n; line 2, column 18: expected a size or a closing bracket, found an opening bracket\n",
    },
    Case {
        sheet: b"(house 1 series)\n(quote 1 bid 25 (10)",
        says: "(unread 21 2)\n; line 2, column 21: expected a closing bracket, found the end of the line\n",
    },
    Case {
        sheet: b"(house 1 series)\n(house 1 net buy 1)",
        says: "(unread 21 2)\n; line 2, column 14: expected a leg or a closing bracket, found another word\n",
    },
    Case {
        sheet: b"(house 1 series)\n(house 1 net (buy 1)",
        says: "(unread 21 2)\n; line 2, column 21: expected a leg or a closing bracket, found the end of the line\n",
    },
    Case {
        sheet: b"(house 1 series)\n(house 1 net (buy 1 2))",
        says: "(unread 21 2)\n; line 2, column 21: expected a closing bracket, found another word\n",
    },
    Case {
        sheet: b"(house 1 series)\n(rest 1 buy 101 10)",
        says: "(unread 21 2)\n; line 2, column 19: expected customer or other, found a closing bracket\n",
    },
    Case {
        sheet: b"(house 1 series)\n(rest 1 buy 101 10 other other)",
        says: "(unread 21 2)\n; line 2, column 26: expected a closing bracket, found another word\n",
    },
];

const HOUSE_FORM_FIRST_AND_ONCE: [Case; 10] = [
    Case {
        sheet: b"",
        says: "(unread 22 1)\n; line 1: there is no house form\n",
    },
    Case {
        sheet: b"; no form\n\n;",
        says: "(unread 22 1)\n; line 1: there is no house form\n",
    },
    Case {
        sheet: b"\n(halt (at 1))\n(house 1 series)\n",
        says: "(unread 22 2)\n; line 2: the first form is no house form\n",
    },
    Case {
        sheet: b"(house 1 series)\n;\n(house 2 series)",
        says: "(unread 22 3)\n; line 3: a second house form\n",
    },
    Case {
        sheet: b"(house 1 series)\n(house 2 net)\n(x)",
        says: "(unread 22 2)\n; line 2: a second house form\n",
    },
    Case {
        sheet: b"(house 1 series)\n(x)\n(house 2 net)",
        says: "(unread 21 2)\n; line 2, column 2: expected the name of a form, found another word\n",
    },
    Case {
        sheet: b"(halt (at 1))\n(x)",
        says: "(unread 22 1)\n; line 1: the first form is no house form\n",
    },
    Case {
        sheet: b";\n(x)\n(halt (at 1))",
        says: "(unread 21 2)\n; line 2, column 2: expected the name of a form, found another word\n",
    },
    Case {
        sheet: b";\n;\n\n(x",
        says: "(unread 21 4)\n; line 4, column 2: expected the name of a form, found another word\n",
    },
    Case {
        sheet: b"(house 1 series)\n(house 2 series",
        says: "(unread 21 2)\n; line 2, column 16: expected a closing bracket, found the end of the line\n",
    },
];

// Runs each case of a table.
fn check(rt: &(impl Abort + AllocGlobal), cases: &[Case]) -> Result<(), Fail> {
    for (i, case) in cases.iter().enumerate() {
        let text = report(rt.alloc(), case.sheet)?;
        assert_eq!(rt; text.as_str(), case.says, "case {i}, from 0");
    }
    Ok(())
}

#[test]
fn lines_and_comments(rt: HostRuntime) -> Result<(), Fail> {
    check(&rt, &LINES_AND_COMMENTS)
}

#[test]
fn every_form_is_read(rt: HostRuntime) -> Result<(), Fail> {
    check(&rt, &EVERY_FORM)
}

#[test]
fn numbers_at_each_edge(rt: HostRuntime) -> Result<(), Fail> {
    check(&rt, &NUMBERS_AT_EACH_EDGE)
}

#[test]
fn every_word_wrong_once(rt: HostRuntime) -> Result<(), Fail> {
    check(&rt, &EVERY_WORD_WRONG_ONCE)
}

#[test]
fn brackets_and_lists(rt: HostRuntime) -> Result<(), Fail> {
    check(&rt, &BRACKETS_AND_LISTS)
}

#[test]
fn house_form_first_and_once(rt: HostRuntime) -> Result<(), Fail> {
    check(&rt, &HOUSE_FORM_FIRST_AND_ONCE)
}
