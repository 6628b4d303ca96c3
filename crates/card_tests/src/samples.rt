// Sheets for the tests.

// Doubles a global by recursion: global 2 becomes twice global 1.
pub const DOUBLE: &[u8] =
    b"1,g,1,0,0,0\n2,g,2,0,0,0\n3,x,3,0,0,0\n4,k,0,0,0,0\n5,=,3,4,0,0\n6,x,4,0,0,0\n7,k,0,0,0,0\n8,s,6,7,0,0\n9,x,3,0,0,0\n10,k,1,0,0,0\n11,-,9,10,0,0\n12,x,4,0,0,0\n13,p,1,11,12,0\n14,x,4,0,0,0\n15,x,4,0,0,0\n16,k,2,0,0,0\n17,+,15,16,0,0\n18,s,14,17,0,0\n19,;,13,18,0,0\n20,i,5,8,19,0\n21,d,1,3,4,20\n22,x,1,0,0,0\n23,x,2,0,0,0\n24,p,1,22,23,0\n25,e,21,24,0,0\n";

// Damaged sheets, read into four records: the number and the line of each refusal, as the rules of a card give them.
pub const DAMAGED: [(&str, u8, usize); 36] = [
    // no byte
    ("", 1, 0),
    // not closed
    ("1,t,0,0,0,0", 2, 1),
    // the last line not closed
    ("1,t,0,0,0,0\n2,t,0,0,0,0", 2, 2),
    // an empty line
    ("\n", 2, 1),
    // five fields
    ("1,t,0,0,0\n", 2, 1),
    // seven fields
    ("1,t,0,0,0,0,0\n", 2, 1),
    // wrong first field
    ("2,t,0,0,0,0\n", 3, 1),
    // a leading zero in the first field
    ("01,t,0,0,0,0\n", 3, 1),
    // a plus
    ("+1,t,0,0,0,0\n", 3, 1),
    // an empty first field
    (",t,0,0,0,0\n", 3, 1),
    // a line left out
    ("1,t,0,0,0,0\n3,t,0,0,0,0\n", 3, 2),
    // an unknown kind
    ("1,w,0,0,0,0\n", 4, 1),
    // an empty kind
    ("1,,0,0,0,0\n", 4, 1),
    // a longer kind
    ("1,tt,0,0,0,0\n", 4, 1),
    // a capital
    ("1,T,0,0,0,0\n", 4, 1),
    // the first field before the kind
    ("2,w,0,0,0,0\n", 3, 1),
    // the kind before the other fields
    ("1,w,01,0,0,0\n", 4, 1),
    // an unused field not 0
    ("1,t,1,0,0,0\n", 3, 1),
    // an empty field
    ("1,t,0,0,0,\n", 3, 1),
    // name 0
    ("1,x,0,0,0,0\n", 3, 1),
    // name 256
    ("1,x,256,0,0,0\n", 3, 1),
    // a plus before a name
    ("1,x,+1,0,0,0\n", 3, 1),
    // a leading zero
    ("1,x,01,0,0,0\n", 3, 1),
    // a minus before a name
    ("1,x,-1,0,0,0\n", 3, 1),
    // a global of length 257
    ("1,g,1,257,0,0\n", 3, 1),
    // an array of length 0
    ("1,r,1,0,1,0\n", 3, 1),
    // an array of length 257
    ("1,r,1,257,1,0\n", 3, 1),
    // a constant too large
    ("1,k,2147483648,0,0,0\n", 3, 1),
    // a constant too small
    ("1,k,-2147483649,0,0,0\n", 3, 1),
    // minus nought
    ("1,k,-0,0,0,0\n", 3, 1),
    // a minus alone
    ("1,k,-,0,0,0\n", 3, 1),
    // a blank
    ("1,k,- 1,0,0,0\n", 3, 1),
    // line field 0
    ("1,!,0,0,0,0\n", 3, 1),
    // line field 2049
    ("1,!,2049,0,0,0\n", 3, 1),
    // a body line 2049
    ("1,d,1,1,1,2049\n", 3, 1),
    // no record left
    (
        "1,t,0,0,0,0\n2,t,0,0,0,0\n3,t,0,0,0,0\n4,t,0,0,0,0\n5,t,0,0,0,0\n",
        5,
        5,
    ),
];

// Both ends of every range, read into four records: how many lines each sheet has.
pub const WHOLE: [(&str, usize); 8] = [
    ("1,x,1,0,0,0\n", 1),
    ("1,x,255,0,0,0\n", 1),
    ("1,g,1,0,0,0\n2,g,1,256,0,0\n", 2),
    ("1,r,1,1,1,0\n", 1),
    ("1,r,1,256,2048,0\n", 1),
    (
        "1,k,2147483647,0,0,0\n2,k,-2147483648,0,0,0\n3,k,0,0,0,0\n",
        3,
    ),
    ("1,!,1,0,0,0\n2,!,2048,0,0,0\n", 2),
    ("1,t,0,0,0,0\n2,t,0,0,0,0\n3,t,0,0,0,0\n4,t,0,0,0,0\n", 4),
];
