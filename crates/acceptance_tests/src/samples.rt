// Sheets for the tests.

// The number and the line of a refusal, where there is one, as the rules of a card give them.
pub type Told = Option<(u8, usize)>;

// A sheet, the refusal that it gets for whole numbers, and the one that it gets for singles.
pub const SHEETS: [(&str, Told, Told); 38] = [
    // a script
    (
        "1,g,1,0,0,0\n2,x,1,0,0,0\n3,k,5,0,0,0\n4,s,2,3,0,0\n",
        None,
        None,
    ),
    // a field that names its own line
    (
        "1,g,1,0,0,0\n2,x,1,0,0,0\n3,s,2,3,0,0\n",
        Some((6, 3)),
        Some((6, 3)),
    ),
    // a field that names a later line, and so a line that none names
    (
        "1,g,1,0,0,0\n2,x,1,0,0,0\n3,k,5,0,0,0\n4,s,2,5,0,0\n",
        Some((6, 3)),
        Some((6, 3)),
    ),
    // a condition where an expression is wanted
    (
        "1,g,1,0,0,0\n2,x,1,0,0,0\n3,t,0,0,0,0\n4,s,2,3,0,0\n",
        Some((6, 4)),
        Some((6, 4)),
    ),
    // a constant where a variable is wanted
    (
        "1,g,1,0,0,0\n2,k,5,0,0,0\n3,x,1,0,0,0\n4,s,2,3,0,0\n",
        Some((6, 4)),
        Some((6, 4)),
    ),
    // a variable where a condition is wanted
    (
        "1,g,1,0,0,0\n2,x,1,0,0,0\n3,x,1,0,0,0\n4,k,1,0,0,0\n5,s,3,4,0,0\n6,x,1,0,0,0\n7,k,2,0,0,0\n8,s,6,7,0,0\n9,i,2,5,8,0\n",
        Some((6, 9)),
        Some((6, 9)),
    ),
    // a statement where a declaration is wanted
    (
        "1,g,1,0,0,0\n2,x,1,0,0,0\n3,k,5,0,0,0\n4,s,2,3,0,0\n5,x,1,0,0,0\n6,k,6,0,0,0\n7,s,5,6,0,0\n8,e,4,7,0,0\n",
        Some((6, 8)),
        Some((6, 8)),
    ),
    // lines used again
    (
        "1,g,1,0,0,0\n2,x,1,0,0,0\n3,k,5,0,0,0\n4,s,2,3,0,0\n5,s,2,3,0,0\n6,;,4,5,0,0\n",
        Some((6, 5)),
        Some((6, 5)),
    ),
    // one line in two fields
    (
        "1,g,1,0,0,0\n2,x,1,0,0,0\n3,+,2,2,0,0\n4,x,1,0,0,0\n5,s,4,3,0,0\n",
        Some((6, 3)),
        Some((6, 3)),
    ),
    // a line that none names
    (
        "1,g,1,0,0,0\n2,x,1,0,0,0\n3,k,5,0,0,0\n4,k,6,0,0,0\n5,s,2,3,0,0\n",
        Some((6, 4)),
        Some((6, 4)),
    ),
    // a global after another line
    (
        "1,g,1,0,0,0\n2,x,1,0,0,0\n3,k,5,0,0,0\n4,g,2,0,0,0\n5,s,2,3,0,0\n",
        Some((6, 4)),
        Some((6, 4)),
    ),
    // the last line no statement
    ("1,g,1,0,0,0\n2,x,1,0,0,0\n", Some((6, 2)), Some((6, 2))),
    // globals alone
    ("1,g,1,0,0,0\n", Some((6, 1)), Some((6, 1))),
    // two faults of form: the lower line
    (
        "1,g,1,0,0,0\n2,k,7,0,0,0\n3,x,1,0,0,0\n4,g,2,0,0,0\n5,k,5,0,0,0\n6,s,3,5,0,0\n",
        Some((6, 2)),
        Some((6, 2)),
    ),
    // two simple globals of one name
    (
        "1,g,1,0,0,0\n2,g,1,0,0,0\n3,x,1,0,0,0\n4,k,5,0,0,0\n5,s,3,4,0,0\n",
        Some((8, 2)),
        Some((8, 2)),
    ),
    // two global arrays of one name
    (
        "1,g,1,2,0,0\n2,g,1,3,0,0\n3,k,0,0,0,0\n4,a,1,3,0,0\n5,k,5,0,0,0\n6,s,4,5,0,0\n",
        Some((8, 2)),
        Some((8, 2)),
    ),
    // a simple global and an array of one name
    (
        "1,g,1,0,0,0\n2,g,1,2,0,0\n3,x,1,0,0,0\n4,k,5,0,0,0\n5,s,3,4,0,0\n",
        None,
        None,
    ),
    // formals of one name
    (
        "1,g,1,0,0,0\n2,x,3,0,0,0\n3,k,1,0,0,0\n4,s,2,3,0,0\n5,d,1,3,3,4\n6,x,1,0,0,0\n7,x,1,0,0,0\n8,p,1,6,7,0\n9,e,5,8,0,0\n",
        Some((8, 5)),
        Some((8, 5)),
    ),
    // procedures of one name
    (
        "1,g,1,0,0,0\n2,x,1,0,0,0\n3,k,1,0,0,0\n4,s,2,3,0,0\n5,d,1,3,4,4\n6,x,1,0,0,0\n7,k,2,0,0,0\n8,s,6,7,0,0\n9,d,1,3,4,8\n10,&,5,9,0,0\n11,x,1,0,0,0\n12,x,1,0,0,0\n13,p,1,11,12,0\n14,e,10,13,0,0\n",
        Some((8, 9)),
        Some((8, 9)),
    ),
    // a simple variable that is not declared
    (
        "1,g,1,0,0,0\n2,x,2,0,0,0\n3,k,5,0,0,0\n4,s,2,3,0,0\n",
        Some((7, 2)),
        Some((7, 2)),
    ),
    // an array that is not declared, by the name of a simple variable
    (
        "1,g,1,0,0,0\n2,k,0,0,0,0\n3,a,1,2,0,0\n4,k,5,0,0,0\n5,s,3,4,0,0\n",
        Some((7, 3)),
        Some((7, 3)),
    ),
    // a procedure that is not declared
    (
        "1,g,1,0,0,0\n2,x,1,0,0,0\n3,x,1,0,0,0\n4,p,1,2,3,0\n",
        Some((7, 4)),
        Some((7, 4)),
    ),
    // a formal outside its body
    (
        "1,g,1,0,0,0\n2,x,4,0,0,0\n3,k,1,0,0,0\n4,s,2,3,0,0\n5,d,1,3,4,4\n6,x,3,0,0,0\n7,x,1,0,0,0\n8,p,1,6,7,0\n9,e,5,8,0,0\n",
        Some((7, 6)),
        Some((7, 6)),
    ),
    // a variable outside its statement
    (
        "1,g,1,0,0,0\n2,x,2,0,0,0\n3,k,1,0,0,0\n4,s,2,3,0,0\n5,v,2,4,0,0\n6,x,2,0,0,0\n7,k,1,0,0,0\n8,s,6,7,0,0\n9,;,5,8,0,0\n",
        Some((7, 6)),
        Some((7, 6)),
    ),
    // a procedure outside its system
    (
        "1,g,1,0,0,0\n2,x,1,0,0,0\n3,k,1,0,0,0\n4,s,2,3,0,0\n5,d,1,3,4,4\n6,x,1,0,0,0\n7,x,1,0,0,0\n8,p,1,6,7,0\n9,e,5,8,0,0\n10,x,1,0,0,0\n11,x,1,0,0,0\n12,p,1,10,11,0\n13,;,9,12,0,0\n",
        Some((7, 12)),
        Some((7, 12)),
    ),
    // two names that are not declared: the lower line
    (
        "1,g,1,0,0,0\n2,x,2,0,0,0\n3,x,3,0,0,0\n4,s,2,3,0,0\n",
        Some((7, 2)),
        Some((7, 2)),
    ),
    // a simple variable that hides a global
    (
        "1,g,1,0,0,0\n2,x,1,0,0,0\n3,k,1,0,0,0\n4,s,2,3,0,0\n5,v,1,4,0,0\n",
        None,
        None,
    ),
    // an array that hides a global one
    (
        "1,g,1,3,0,0\n2,k,0,0,0,0\n3,a,1,2,0,0\n4,k,1,0,0,0\n5,s,3,4,0,0\n6,r,1,2,5,0\n",
        None,
        None,
    ),
    // a formal that hides a global
    (
        "1,g,3,0,0,0\n2,x,3,0,0,0\n3,k,1,0,0,0\n4,s,2,3,0,0\n5,d,1,3,4,4\n6,x,3,0,0,0\n7,x,3,0,0,0\n8,p,1,6,7,0\n9,e,5,8,0,0\n",
        None,
        None,
    ),
    // a procedure that hides another
    (
        "1,g,1,0,0,0\n2,x,12,0,0,0\n3,x,12,0,0,0\n4,k,10,0,0,0\n5,*,3,4,0,0\n6,k,1,0,0,0\n7,+,5,6,0,0\n8,s,2,7,0,0\n9,d,1,11,12,8\n10,x,12,0,0,0\n11,x,12,0,0,0\n12,k,10,0,0,0\n13,*,11,12,0,0\n14,k,2,0,0,0\n15,+,13,14,0,0\n16,s,10,15,0,0\n17,d,1,11,12,16\n18,k,0,0,0,0\n19,x,1,0,0,0\n20,p,1,18,19,0\n21,e,17,20,0,0\n22,k,0,0,0,0\n23,x,1,0,0,0\n24,p,1,22,23,0\n25,;,21,24,0,0\n26,e,9,25,0,0\n",
        None,
        None,
    ),
    // procedures that call each other
    (
        "1,g,1,0,0,0\n2,x,3,0,0,0\n3,x,4,0,0,0\n4,p,2,2,3,0\n5,d,1,3,4,4\n6,x,3,0,0,0\n7,x,4,0,0,0\n8,p,1,6,7,0\n9,d,2,3,4,8\n10,&,5,9,0,0\n11,x,1,0,0,0\n12,x,1,0,0,0\n13,p,1,11,12,0\n14,e,10,13,0,0\n",
        None,
        None,
    ),
    // the largest constant of singles
    (
        "1,g,1,0,0,0\n2,x,1,0,0,0\n3,k,16777216,0,0,0\n4,s,2,3,0,0\n",
        None,
        None,
    ),
    // one past it
    (
        "1,g,1,0,0,0\n2,x,1,0,0,0\n3,k,16777217,0,0,0\n4,s,2,3,0,0\n",
        None,
        Some((10, 3)),
    ),
    // the smallest constant of singles
    (
        "1,g,1,0,0,0\n2,x,1,0,0,0\n3,k,-16777216,0,0,0\n4,s,2,3,0,0\n",
        None,
        None,
    ),
    // one below it
    (
        "1,g,1,0,0,0\n2,x,1,0,0,0\n3,k,-16777217,0,0,0\n4,s,2,3,0,0\n",
        None,
        Some((10, 3)),
    ),
    // form before names twice
    (
        "1,g,1,0,0,0\n2,g,1,0,0,0\n3,x,1,0,0,0\n4,k,5,0,0,0\n5,g,2,0,0,0\n6,s,3,4,0,0\n",
        Some((6, 5)),
        Some((6, 5)),
    ),
    // names twice before undeclared names
    (
        "1,g,1,0,0,0\n2,g,1,0,0,0\n3,x,2,0,0,0\n4,k,5,0,0,0\n5,s,3,4,0,0\n",
        Some((8, 2)),
        Some((8, 2)),
    ),
    // undeclared names before constants
    (
        "1,g,1,0,0,0\n2,x,1,0,0,0\n3,k,16777217,0,0,0\n4,x,2,0,0,0\n5,+,3,4,0,0\n6,s,2,5,0,0\n",
        Some((7, 4)),
        Some((7, 4)),
    ),
];
