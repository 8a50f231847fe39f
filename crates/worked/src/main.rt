// Runs the worked sheets as cards, and says of each whether its answers are what they should be.
#![tactic(auto)]

use runner::run_card;
use std::io;

// A sheet as a card, with what the card must print.
struct Worked {
    name: &'static str,
    card: &'static [u8],
    answers: &'static [u8],
}

const SHEETS: [Worked; 9] = [
    Worked {
        name: "b midway between a and c, a pulled to 100, then to 1, kept, gripped again, a at 2",
        card: b"length a b c\nbind 1 -2 1 0\ngrip * 1 1\npull 100 0 0\npull 1 0 0\nkeep\ngrip * 1 1\npull 2 0 0\n",
        answers: b"ok\nok\nok 1 100 40 -20\nok 5 5 2 -1\nok\nok\nok 5 10 4 -2\nend\n",
    },
    Worked {
        name: "the same with weights 12 and 1",
        card: b"length a b c\nbind 1 -2 1 0\ngrip * 12 1\npull 100 0 0\n",
        answers: b"ok\nok\nok 2 200 25 -150\nend\n",
    },
    Worked {
        name: "two of three relations imply the third",
        card: b"length a b c e\nbind 1 -1 0 0 0\nbind 0 1 -1 0 0\nbind 1 0 -1 0 0\ngrip 12 12 12 *\n",
        answers: b"ok\nok\nok\nok 2\nend\n",
    },
    Worked {
        name: "a + b = 10 on 4 and 6, both pulled",
        card: b"length a b\ngrip * *\npull 4 6\nkeep\nbind 1 1 10\ngrip * *\npull 3 7\npull 4 7\n",
        answers: b"ok\nok 1 4 6\nok\nok\nok 0\nok 1 3 7\nno 13\nend\n",
    },
    Worked {
        name: "points, a pulled to (100, 1)",
        card: b"point a b c\nbind 1 -2 1 0,0\ngrip * 1 1\npull 100,1 0,0 0,0\n",
        answers: b"ok\nok\nok 5 500,5 200,2 -100,-1\nend\n",
    },
    Worked {
        name: "2a = b, b on the sheet's edge and beyond",
        card: b"length a b\nbind 2 -1 0\ngrip * ~\npull 23780 0\npull 23781 0\n",
        answers: b"ok\nok\nok 1 23780 47560\nno 15\nend\n",
    },
    Worked {
        name: "seven pulled with coefficient 1,000",
        card: b"length a b c d e f g\nbind 1000 1000 1000 1000 1000 1000 1000 0\ngrip * * * * * * *\npull 47560 47560 47560 47560 47560 47560 14640\npull 47560 47560 47560 47560 47560 47560 14641\n",
        answers: b"ok\nok 0\nno 13\nno 12\nend\n",
    },
    Worked {
        name: "a denominator of 44,962, and one beyond 45,000",
        card: b"length a b z\nbind 211 21 -1 0\ngrip 12 12 *\npull 0 0 1\ndrop\nunbind 0\nbind 212 9 -1 0\ngrip 12 12 *\npull 0 0 1\n",
        answers: b"ok\nok\nok 44962 211 21 44962\nok\nok\nok\nok\nno 14\nend\n",
    },
    Worked {
        name: "a table beyond its limit",
        card: b"length a b e\nbind 1000 999 0 0\nbind 999 -998 0 0\ngrip 12 12 *\n",
        answers: b"ok\nok\nno 10\nend\n",
    },
];

// Runs a sheet's card, and prints whether its answers are as they should be.
fn compare(rt: &HostRuntime, sheet: &Worked) -> io::Result<()> {
    let same = run_card(rt.alloc(), sheet.card).is_ok_and(|out| out.as_slice() == sheet.answers);
    let name = sheet.name;
    if same {
        println!(rt; "as it should be: {name}")
    } else {
        println!(rt; "NOT as it should be: {name}")
    }
}

fn main(rt: HostRuntime) -> io::Result<()> {
    for sheet in &SHEETS {
        compare(&rt, sheet)?;
    }
    Ok(())
}
