// One rule's formula as numbers in a lent buffer: four numbers a node, children before parents. The buffer is lent and of a fixed size, for the
// reader asks for no memory. The rule parser puts nodes; lowering and printing read them.
#![tactic(auto)]

ghost use Rattle.std.specs.Prelude.{◌≡◌, ◌<◌};
ghost use Rattle.read_arena.specs.Nodes.{sign_of, node_at, code_of, put_node, put_keep};
ghost use Rattle.read_arena.specs.NodeRules.{ChildrenBefore, Storable, HasNode, NodeRoom};

// The signs & | => <=>. A sign binds tighter than those with a larger number.
#[derive(Clone, Copy)]
pub enum Sign {
    And = 0,
    Or = 1,
    Implies = 2,
    Iff = 3,
}

// A node of a rule. Its children are given by their numbers.
#[derive(Clone, Copy)]
pub enum Node {
    // A signal's row.
    Name(u16),
    // The child.
    Deny(usize),
    // The two children.
    Pair(Sign, usize, usize),
    // True is @; the child; the interval's first offset with 64 added; how many more follow.
    Time(bool, usize, u16, u16),
    // True is since; its two arguments; its hidden signal's row.
    Keep(bool, usize, usize, u16),
}

// The sign with this number.
#[tactic(auto, using(crate::proofs::Cases::sign_past), unfolding(crate::specs::Nodes::sign_of))]
fn sign_of(z: u16) -> Sign
    ensures { result ≡ sign_of z }
{
    match z {
        0 => Sign::And,
        1 => Sign::Or,
        2 => Sign::Implies,
        _ => Sign::Iff,
    }
}

// Node n of the buffer.
#[tactic(auto, unfolding(crate::specs::Nodes::node_at, crate::specs::Nodes::node_of))]
pub fn node_at(arena: &[u16], n: usize) -> Node
    requires { HasNode arena.now n }
    ensures { result ≡ node_at arena.now n }
{
    let at = 4 * n;
    let x = arena[at + 1];
    let y = arena[at + 2];
    let z = arena[at + 3];
    let left = x as usize;
    let right = y as usize;
    match arena[at] {
        0 => Node::Name(x),
        1 => Node::Deny(left),
        2 => Node::Pair(sign_of(z), left, right),
        3 => Node::Time(true, left, y, z),
        4 => Node::Time(false, left, y, z),
        5 => Node::Keep(true, left, right, z),
        _ => Node::Keep(false, left, right, z),
    }
}

// The four numbers of a node: its kind, then x, y and z.
#[tactic(auto, unfolding(crate::specs::Nodes::code_of))]
fn code_of(node: Node) -> [u16; 4]
    requires { Storable node }
    ensures { result ≡ code_of node }
{
    match node {
        Node::Name(x) => [0, x, 0, 0],
        Node::Deny(x) => [1, x as u16, 0, 0],
        Node::Pair(sign, x, y) => [2, x as u16, y as u16, sign as u16],
        Node::Time(true, x, first, more) => [3, x as u16, first, more],
        Node::Time(false, x, first, more) => [4, x as u16, first, more],
        Node::Keep(true, x, y, row) => [5, x as u16, y as u16, row],
        Node::Keep(false, x, y, row) => [6, x as u16, y as u16, row],
    }
}

// A node more, past the first count of them.
pub fn put_node(arena: &mut [u16], count: usize, node: Node)
    requires node_room { NodeRoom arena.old count 1 }
    requires children_before { ChildrenBefore node count }
    ensures { arena.new ≡ put_node arena.old count node }
{
    let [kind, x, y, z] = code_of(node);
    let at = 4 * count;
    arena[at] = kind;
    arena[at + 1] = x;
    arena[at + 2] = y;
    arena[at + 3] = z;
}

// A since or an until with its arguments at left and right, past the first count nodes: first the five nodes of its hidden signal's
// defining rule, x <=> (A | (B & x))@[-1,-1] or with [1,1], then its own node.
pub fn put_keep(arena: &mut [u16], count: usize, since: bool, row: u16, left: usize, right: usize)
    requires node_room { NodeRoom arena.old count 6 }
    requires left_lt_count { (left < count) × (right < count) }
    ensures { arena.new ≡ put_keep arena.old count since row left right }
{
    let step = if since { 63 } else { 65 };
    put_node(arena, count, Node::Name(row));
    put_node(arena, count + 1, Node::Pair(Sign::And, right, count));
    put_node(arena, count + 2, Node::Pair(Sign::Or, left, count + 1));
    put_node(arena, count + 3, Node::Time(true, count + 2, step, 0));
    put_node(arena, count + 4, Node::Pair(Sign::Iff, count, count + 3));
    put_node(arena, count + 5, Node::Keep(since, left, right, row));
}
