// Which program a text is run as.
ghost use Rattle.tn_run.specs.Scripts.{IsAccepted};

use std::alloc::Allocator;
use tn_program::{Program, program};
use tn_refusal::{Denial, denial_of_rules, denial_of_script};
use tn_script::forms;

/// The program of a script, or its refusal: of the text (1 to 4), of the number of forms (6), of a form
/// without shape (5), and of the rules (7 to 13).
pub fn accept<A: Allocator + Copy>(alloc: A, bytes: &[u8]) -> Result<Program<A>, Denial>
    ensures { IsAccepted bytes.now result }
{
    let forms = match forms(alloc, bytes) {
        Ok(forms) => forms,
        Err(fault) => return Err(denial_of_script(fault)),
    };
    match program(alloc, forms) {
        Ok(program) => Ok(program),
        Err(fault) => Err(denial_of_rules(fault)),
    }
}
