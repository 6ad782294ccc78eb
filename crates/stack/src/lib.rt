// The matrix stack by value: a current matrix and the saved ones.
#![tactic(auto)]

ghost use Rattle.std.specs.Prelude.{◌≡◌};
ghost use Rattle.number.specs.Decides.{Decides};
ghost use Rattle.refusal.specs.RefusalsCode.{answer_or};
ghost use Rattle.stack.specs.Stack.{Sound, MatrixCall, stack_answer, fresh_stack};

use refusal::Refusal;

// 16 f32, column by column.
#[repr(C)]
#[derive(Clone, Copy)]
pub struct Matrix {
    pub entries: [f32; 16],
}

// Puts a matrix in the place of another, entry by entry: the compiler copies two fields that lie side by side together, unless the numbers of one
// are read or written one by one.
pub fn replace(to: &mut [f32; 16], from: Matrix)
    ensures { to.new ≡ from.entries }
{
    let e = from.entries;
    *to = [
        e[0], e[1], e[2], e[3], e[4], e[5], e[6], e[7], e[8], e[9], e[10], e[11], e[12], e[13],
        e[14], e[15],
    ];
}

// How many matrices a stack saves.
pub const SAVED_LIMIT: usize = 15;

// A current matrix, and `depth` saved ones: the first of `saved`. With the number between the two, the compiler can copy the one without the other.
#[repr(C)]
#[derive(Clone, Copy)]
pub struct MatrixStack {
    pub current: Matrix,
    pub depth: usize,
    pub saved: [Matrix; SAVED_LIMIT],
}

impl MatrixStack {
    // A stack with no matrix saved.
    pub fn new() -> MatrixStack
        ensures { result ≡ fresh_stack }
    {
        let unit = Matrix {
            entries: matrix::IDENTITY,
        };
        MatrixStack {
            current: unit,
            saved: [unit; SAVED_LIMIT],
            depth: 0,
        }
    }

    // Whether at most the allowed matrices are saved.
    pub fn is_sound(self) -> bool
        ensures { Decides (Sound self) result }
    {
        self.depth <= SAVED_LIMIT
    }

    // The stack after a copy of the current matrix is saved.
    #[tactic(auto, unfolding(crate::specs::Stack::stack_answer))]
    pub fn push(self) -> Result<MatrixStack, Refusal>
        ensures { answer_or self result ≡ stack_answer MatrixCall.push self }
    {
        let depth = self.depth;
        if SAVED_LIMIT < depth {
            return Err(Refusal::Invalid);
        }
        if depth == SAVED_LIMIT {
            return Err(Refusal::StackOverflow);
        }
        let mut out = self;
        out.saved[depth] = self.current;
        out.depth = depth + 1;
        Ok(out)
    }

    // The stack after the matrix saved last is taken back.
    #[tactic(auto, unfolding(crate::specs::Stack::stack_answer))]
    pub fn pop(self) -> Result<MatrixStack, Refusal>
        ensures { answer_or self result ≡ stack_answer MatrixCall.pop self }
    {
        let depth = self.depth;
        if SAVED_LIMIT < depth {
            return Err(Refusal::Invalid);
        }
        if depth == 0 {
            return Err(Refusal::StackUnderflow);
        }
        let last = depth - 1;
        let mut out = self;
        out.current = self.saved[last];
        out.depth = last;
        Ok(out)
    }
}
