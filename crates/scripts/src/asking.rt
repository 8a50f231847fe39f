// What a line of a card asks of the sheet.
ghost use Rattle.std.specs.Prelude.{◌≡◌, map, IfOk};
ghost use Rattle.calls.specs.Shown.{call_of};
ghost use Rattle.cells.specs.Cells.{role_of};
ghost use Rattle.lines.specs.Lines.{said};
ghost use Rattle.scripts.specs.Scripts.{asked};

use calls::Call;
use cells::Cell;
use forms::Written;
use kinds::Kind;
use lines::Line;
use records::Role;
use std::alloc::{AllocError, Global};

// The roles that cells give.
fn roles_of(heap: Global, cells: &[Cell]) -> Result<Vec<Role>, AllocError>
    ensures { IfOk result (λ roles. roles.items ≡ map role_of cells.now) }
{
    cells.iter().map(|cell| Role::from(*cell)).collect(heap)
}

// The call that a line makes. It takes memory for the roles, which `From` and `TryFrom` are not handed.
pub(crate) fn call_of<V: Written + Kind + Drop>(
    heap: Global,
    line: Line<V>,
) -> Result<Call<V, Role>, AllocError>
    ensures { IfOk result (λ call. call_of V.coords call ≡ asked V.coords (said line)) }
{
    Ok(match line {
        Line::Bind(coefficients, constant) => Call::Bind(coefficients, constant),
        Line::Unbind(number) => Call::Unbind(number),
        Line::Grip(cells) => Call::Grip(roles_of(heap, cells.as_slice())?),
        Line::Pull(wishes) => Call::Pull(wishes),
        Line::Keep => Call::Keep,
        Line::Drop => Call::Drop,
    })
}
