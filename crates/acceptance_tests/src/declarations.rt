// Which declaration each name belongs to, once a sheet is accepted.
use acceptance::scripts::read_script;
use kinds::Whole;
use lines::records::{Declaration, Line, LineNumber, Record, Role};
use std::test::Fail;

// A line of a sheet, and the line and the role of the declaration that its record tells.
type Telling = (usize, LineNumber, Role);

const SCRIPTS: [(&str, [Telling; 4]); 6] = [
    // globals, by their cells
    (
        "1,g,1,3,0,0\n2,g,1,0,0,0\n3,x,1,0,0,0\n4,a,1,3,0,0\n5,x,1,0,0,0\n6,a,1,5,0,0\n7,s,4,6,0,0\n",
        [
            (3, 2, Role::GlobalSimple { cell: 3 }),
            (
                4,
                1,
                Role::GlobalArray {
                    first: 0,
                    length: 3,
                },
            ),
            (5, 2, Role::GlobalSimple { cell: 3 }),
            (
                6,
                1,
                Role::GlobalArray {
                    first: 0,
                    length: 3,
                },
            ),
        ],
    ),
    // a simple variable that hides a global, and one that hides it
    (
        "1,g,1,0,0,0\n2,x,1,0,0,0\n3,k,1,0,0,0\n4,s,2,3,0,0\n5,v,1,4,0,0\n6,x,1,0,0,0\n7,x,1,0,0,0\n8,s,6,7,0,0\n9,;,5,8,0,0\n10,v,1,9,0,0\n11,x,1,0,0,0\n12,k,2,0,0,0\n13,s,11,12,0,0\n14,;,10,13,0,0\n",
        [
            (2, 5, Role::Declared),
            (6, 10, Role::Declared),
            (7, 10, Role::Declared),
            (11, 1, Role::GlobalSimple { cell: 0 }),
        ],
    ),
    // an array that hides a global one, and a simple variable of its name
    (
        "1,g,1,3,0,0\n2,g,1,0,0,0\n3,x,1,0,0,0\n4,a,1,3,0,0\n5,k,1,0,0,0\n6,s,4,5,0,0\n7,r,1,2,6,0\n8,x,1,0,0,0\n9,a,1,8,0,0\n10,k,1,0,0,0\n11,s,9,10,0,0\n12,;,7,11,0,0\n",
        [
            (3, 2, Role::GlobalSimple { cell: 3 }),
            (4, 7, Role::Declared),
            (8, 2, Role::GlobalSimple { cell: 3 }),
            (
                9,
                1,
                Role::GlobalArray {
                    first: 0,
                    length: 3,
                },
            ),
        ],
    ),
    // a formal that hides a global
    (
        "1,g,3,0,0,0\n2,x,3,0,0,0\n3,k,1,0,0,0\n4,s,2,3,0,0\n5,d,1,3,4,4\n6,x,3,0,0,0\n7,x,3,0,0,0\n8,p,1,6,7,0\n9,e,5,8,0,0\n",
        [
            (2, 5, Role::ValueFormal),
            (5, 9, Role::Declared),
            (6, 1, Role::GlobalSimple { cell: 0 }),
            (8, 5, Role::Declared),
        ],
    ),
    // procedures that call each other: each is told the system of both
    (
        "1,g,1,0,0,0\n2,x,3,0,0,0\n3,x,4,0,0,0\n4,p,2,2,3,0\n5,d,1,3,4,4\n6,x,3,0,0,0\n7,x,4,0,0,0\n8,p,1,6,7,0\n9,d,2,3,4,8\n10,&,5,9,0,0\n11,x,1,0,0,0\n12,x,1,0,0,0\n13,p,1,11,12,0\n14,e,10,13,0,0\n",
        [
            (3, 5, Role::VariableFormal),
            (4, 9, Role::Declared),
            (8, 5, Role::Declared),
            (9, 14, Role::Declared),
        ],
    ),
    // a procedure that hides another
    (
        "1,g,1,0,0,0\n2,x,12,0,0,0\n3,x,12,0,0,0\n4,s,2,3,0,0\n5,d,1,11,12,4\n6,x,12,0,0,0\n7,k,2,0,0,0\n8,s,6,7,0,0\n9,d,1,11,12,8\n10,k,0,0,0,0\n11,x,1,0,0,0\n12,p,1,10,11,0\n13,e,9,12,0,0\n14,k,0,0,0,0\n15,x,1,0,0,0\n16,p,1,14,15,0\n17,;,13,16,0,0\n18,e,5,17,0,0\n",
        [
            (5, 18, Role::Declared),
            (9, 13, Role::Declared),
            (12, 9, Role::Declared),
            (16, 5, Role::Declared),
        ],
    ),
];

#[test]
fn names_belong_to_the_innermost_declaration(rt: HostRuntime) -> Result<(), Fail> {
    for (text, tellings) in SCRIPTS {
        let mut records = [Record::BLANK; 20];
        let reading = read_script::<Whole>(text.as_bytes(), &mut records);
        let Ok(script) = reading.script() else {
            return Err(Fail::new("the sheet is refused"));
        };
        for (number, line, role) in tellings {
            let told = script
                .records()
                .get(number.saturating_sub(1))
                .and_then(|record| record.declaration);
            assert_eq!(rt; told, Some(Declaration { line, role }));
        }
    }
    Ok(())
}

#[test]
fn a_refused_sheet_tells_no_declaration(rt: HostRuntime) -> Result<(), Fail> {
    let text = "1,g,1,0,0,0\n2,x,1,0,0,0\n3,x,2,0,0,0\n4,s,2,3,0,0\n";
    let kept = Record {
        line: Line::Simple { name: 9 },
        declaration: None,
    };
    let mut records = [kept; 5];
    let reading = read_script::<Whole>(text.as_bytes(), &mut records);
    assert!(rt; reading.script().is_err());
    assert_eq!(rt; reading.records()[4], kept);
    // the reading is done with, and the records are the caller's again
    assert_eq!(rt; records[1].line, Line::Simple { name: 1 });
    assert_eq!(rt; records[1].declaration, None);
    assert_eq!(rt; records[4], kept);
    Ok(())
}
