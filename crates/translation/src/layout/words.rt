ghost use Rattle.std.specs.Prelude.{◌≡◌, ◌≤◌, length};
ghost use Rattle.few.specs.Held.{held};
ghost use Rattle.language.specs.Translation.{capital as capital_word, small as small_word, instruction_words};
ghost use Rattle.language.specs.declared.instruction.Instruction.TheVariants.{Request, Call, Raise};
ghost use Rattle.translation.specs.Layouts.{laid_out};

use super::Layout;
use few::Few;
use language::{Instruction, Operation, Word};
use scopes::Scope;

/// The register that holds a fault on its way to the handler in force.
const FAULT: u8 = 16;

impl Layout<'_> {
    /// The words that an instruction becomes.
    pub fn translate_instruction(&self, scope: Scope, i: Instruction) -> Few<Word, 3>
        ensures { held result ≡ instruction_words (laid_out self.now) scope.routine scope.handler i }
    {
        match i {
            Instruction::Constant { x, value } => few(&[capital(Operation::Set { x, value })]),
            Instruction::Move { x, y } => few(&[capital(Operation::Assign { x, y })]),
            Instruction::Difference { x, y, z } => few(&[capital(Operation::Subtract { x, y, z })]),
            Instruction::Request { x, operation, y } => {
                self.translate_request(scope, x, operation, y)
            }
            Instruction::Call {
                x,
                routine: called,
                count,
                arguments,
            } => { self.translate_call(scope, x, called, count, arguments) }
            Instruction::Goto { label } => {
                let address = self.block(scope.routine, label);
                few(&[capital(Operation::Jump { address })])
            }
            Instruction::Return { x } => few(&[capital(Operation::Resume { x })]),
            Instruction::Branch {
                x,
                y,
                then,
                otherwise,
            } => {
                let first = self.block(scope.routine, then);
                let second = self.block(scope.routine, otherwise);
                few(&[
                    capital(Operation::Test { x, y }),
                    small(Operation::Jump { address: first }),
                    small(Operation::Jump { address: second }),
                ])
            }
            Instruction::Raise { x } => self.translate_raise(scope, x),
        }
    }

    /// A request, and where its fault goes.
    fn translate_request(&self, scope: Scope, x: u8, operation: u8, y: u8) -> Few<Word, 3>
        ensures { held result ≡ instruction_words (laid_out self.now) scope.routine scope.handler (Request x operation y) }
    {
        let Some(handler) = scope.handler else {
            return few(&[
                capital(Operation::Ask {
                    x,
                    operation,
                    y,
                    catch: FAULT,
                }),
                small(Operation::Throw { x: FAULT }),
            ]);
        };
        let address = self.block(scope.routine, handler.label);
        few(&[
            capital(Operation::Ask {
                x,
                operation,
                y,
                catch: handler.catch,
            }),
            small(Operation::Jump { address }),
        ])
    }

    /// A call, and where what is raised in it goes.
    fn translate_call(
        &self,
        scope: Scope,
        x: u8,
        called: u8,
        count: u8,
        arguments: [u8; 4],
    ) -> Few<Word, 3>
        ensures { held result ≡ instruction_words (laid_out self.now) scope.routine scope.handler (Call x called count arguments) }
    {
        let address = self.routine(called);
        let enter = small(Operation::Enter {
            count,
            address,
            arguments,
        });
        let Some(handler) = scope.handler else {
            return few(&[capital(Operation::Save { x, catch: None }), enter]);
        };
        let address = self.block(scope.routine, handler.label);
        few(&[
            capital(Operation::Save {
                x,
                catch: Some(handler.catch),
            }),
            enter,
            small(Operation::Jump { address }),
        ])
    }

    /// A raise: a jump to the block's handler, or a throw to the one in force.
    fn translate_raise(&self, scope: Scope, x: u8) -> Few<Word, 3>
        ensures { held result ≡ instruction_words (laid_out self.now) scope.routine scope.handler (Raise x) }
    {
        let Some(handler) = scope.handler else {
            return few(&[capital(Operation::Throw { x })]);
        };
        let address = self.block(scope.routine, handler.label);
        few(&[
            capital(Operation::Assign {
                x: handler.catch,
                y: x,
            }),
            small(Operation::Jump { address }),
        ])
    }
}

/// At most three words.
fn few(words: &[Word]) -> Few<Word, 3>
    requires { length words.now ≤ 3 }
    ensures { held result ≡ words.now }
{
    let mut all = Few::new(small(Operation::Throw { x: FAULT }));
    for word in words {
        all.push(*word).unwrap();
    }
    all
}

/// A word that opens a beat.
fn capital(operation: Operation) -> Word
    ensures { result ≡ capital_word operation }
{
    Word {
        opens: true,
        operation,
    }
}

/// A word that goes on with a beat.
pub fn small(operation: Operation) -> Word
    ensures { result ≡ small_word operation }
{
    Word {
        opens: false,
        operation,
    }
}
