// The elimination of a grip's relations.
use records::Refusal;
use table::Table;

// What a table is made of: each v(s), and the coefficients of at most 12 relations.
#[repr(C)]
pub struct Given {
    pub shares: [i64; 48],
    pub rows: [[i64; 48]; 12],
}

// The numbers of a table.
#[repr(C)]
pub struct Cells {
    pub rows: [[i64; 24]; 12],
}

// The first m relations with the first n parameters, if so many are given.
fn given_rows(n: usize, m: usize, given: &Given) -> Option<(&[i64], &[[i64; 48]])> {
    match (given.shares.get(..n), given.rows.get(..m)) {
        (Some(shares), Some(rows)) => Some((shares, rows)),
        _ => None,
    }
}

// The finished table of m relations with n parameters, and 0; or the number of the refusal, since C has no `Result`.
#[unsafe(no_mangle)]
pub extern "C" fn valetwren_eliminate(n: usize, m: usize, given: &Given, out: &mut Cells) -> u8 {
    let Some((shares, rows)) = given_rows(n, m, given) else {
        return Refusal::Unfit.number();
    };
    match Table::finished(shares, rows) {
        Ok(table) => {
            for (to, row) in out.rows.iter_mut().zip(&table.rows) {
                *to = row.cells;
            }
            0
        }
        Err(refusal) => refusal.number(),
    }
}

// The last number of the finished table, or, C having no `Result`, 0 less the number of the refusal: the elimination without a copy of its table.
#[unsafe(no_mangle)]
pub extern "C" fn valetwren_last_number(n: usize, m: usize, given: &Given) -> i64 {
    let Some((shares, rows)) = given_rows(n, m, given) else {
        return 0 - Refusal::Unfit.number() as i64;
    };
    match &Table::finished(shares, rows) {
        Ok(table) => {
            if m == 0 || m > 12 {
                return 0;
            }
            table.rows[m - 1].cells[m + m - 1]
        }
        Err(refusal) => 0 - refusal.number() as i64,
    }
}
