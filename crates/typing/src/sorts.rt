// A sort by its class and the lengths of its two indices, whose words stand on a stack, the left ones first.
// `Room`, `Inside` and `Small` stay premises of the functions that read the stack: a struct of the stack and its top that keeps them would be handed through `type_part` by pointer.
ghost use Rattle.std.specs.Prelude.{◌≡◌};
ghost use Rattle.typebook.specs.Code.Lines.{alike_to};
ghost use Rattle.typing.specs.Code.Shapes.{shape_at, run_at, Inside, Small, Room};

use term::heads::Class;
use words::same;

// An index or a basis has its index on the left; a ket has its index on the left, a bra on the right, and an operator its rows on the left and its columns on the right, as
// the matrix that each stands for. The lengths stand beside the class, 0 where it has none, since most readers want both whatever the class is: an enum with the lengths inside would ask each for a
// `match`.
#[derive(Clone, Copy)]
pub struct Sorted {
    pub class: Class,
    pub left: usize,
    pub right: usize,
}

// Words of the stack or of the declarations: where they begin, and how many they are. It is copied, as a `Range` is not.
#[derive(Clone, Copy)]
pub struct Run {
    pub at: usize,
    pub len: usize,
}

impl Run {
    pub fn of(self, ws: &[u16]) -> &[u16]
        requires { Inside self ws.now }
        ensures { result.now ≡ run_at ws.now self }
    {
        &ws[self.at..self.at + self.len]
    }
}

// What a rule makes of a part's children: a sort; whether indices are multiplied; and where the words of its two indices stand, or of their first factors.
#[derive(Clone, Copy)]
pub struct Plan {
    pub sorted: Sorted,
    pub product: bool,
    pub left: Run,
    pub right: Run,
}

// What is kept of a part's children as they come. The first's words stay, and the others' come behind them.
#[derive(Clone, Copy)]
pub struct Gathered {
    // where the first's words stand
    pub top: usize,
    pub first: Sorted,
    pub latest: Sorted,
    // where the latest's words stand
    pub at: usize,
    // where the next one's words go
    pub free: usize,
    // whether all are like the first, where that is asked
    pub alike: bool,
}

// Whether two sorts are the same. The words of the second index stand behind those of the first, so that both are compared at once.
pub fn are_alike(stack: &[u16], top: usize, a: Sorted, at: usize, b: Sorted) -> bool
    requires { Room top stack.now × Room at stack.now × Small a × Small b }
    ensures { result ≡ alike_to (shape_at stack.now top a) (shape_at stack.now at b) }
{
    if a.class != b.class || a.left != b.left {
        return false;
    }
    let words = Run {
        at: top,
        len: a.left + a.right,
    };
    let others = Run {
        at,
        len: b.left + b.right,
    };
    same(words.of(stack), others.of(stack))
}
