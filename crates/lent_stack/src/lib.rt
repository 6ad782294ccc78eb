// Push and pop on a stack that the caller lends and gets back altered: thin functions over those by value. The context's own push and pop, and
// those of a trace, go through `pushed` and `popped`, which take a stack by value and lend it to them.
#![tactic(auto)]

ghost use Rattle.std.specs.Prelude.{◌≡◌};
ghost use Rattle.refusal.specs.Refusals.{answer};
ghost use Rattle.refusal.specs.RefusalsCode.{answer_or};
ghost use Rattle.stack.specs.Stack.{MatrixCall, stack_answer};

use refusal::{Refusal, number_of};
use stack::MatrixStack;

// A call's number, 0 for done, and the stack after it.
#[derive(Clone, Copy)]
pub struct StackAnswer {
    pub number: u32,
    pub stack: MatrixStack,
}

// The number of what push or pop gave, and the stack after it: a refusal leaves it.
fn answer_of(done: Result<MatrixStack, Refusal>, s: MatrixStack) -> StackAnswer
    ensures { answer result.number result.stack ≡ answer_or s done }
{
    StackAnswer {
        number: number_of(done),
        stack: done.unwrap_or(s),
    }
}

// The stack after a copy of the current matrix is saved, and the call's number.
pub fn answer_push(s: MatrixStack) -> StackAnswer
    ensures { answer result.number result.stack ≡ stack_answer MatrixCall.push s }
{
    answer_of(s.push(), s)
}

// The stack after the matrix saved last is taken back, and the call's number.
pub fn answer_pop(s: MatrixStack) -> StackAnswer
    ensures { answer result.number result.stack ≡ stack_answer MatrixCall.pop s }
{
    answer_of(s.pop(), s)
}

// Saves a copy of the current matrix, and gives the call's number.
pub fn push(stack: &mut MatrixStack) -> u32
    ensures { answer result stack.new ≡ stack_answer MatrixCall.push stack.old }
{
    let saved = answer_push(*stack);
    *stack = saved.stack;
    saved.number
}

// Takes the matrix saved last back, and gives the call's number.
pub fn pop(stack: &mut MatrixStack) -> u32
    ensures { answer result stack.new ≡ stack_answer MatrixCall.pop stack.old }
{
    let taken = answer_pop(*stack);
    *stack = taken.stack;
    taken.number
}

// A stack by value, lent to `push`.
pub fn pushed(s: MatrixStack) -> StackAnswer
    ensures { answer result.number result.stack ≡ stack_answer MatrixCall.push s }
{
    let mut stack = s;
    let number = push(&mut stack);
    StackAnswer { number, stack }
}

// A stack by value, lent to `pop`.
pub fn popped(s: MatrixStack) -> StackAnswer
    ensures { answer result.number result.stack ≡ stack_answer MatrixCall.pop s }
{
    let mut stack = s;
    let number = pop(&mut stack);
    StackAnswer { number, stack }
}
