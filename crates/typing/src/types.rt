// The walk over types, in the bodies of definitions and in an actor. A walk reads the nodes of a book beside tables by name number.
ghost use Rattle.std.specs.Prelude.{◌≡◌, ◌<◌, ◌||◌, ◌&&◌, not, false, IfSome, IsSome, get_or};
ghost use Rattle.std.specs.Option.{is_none};
ghost use Rattle.format.specs.Forest.{breadth};
ghost use Rattle.format.specs.Layout.{siblings};
ghost use Rattle.judgement.specs.Check.{check_forest, methods_fit};
ghost use Rattle.environment.specs.Tables.{Roots, EndNodes, end_is};
ghost use Rattle.typing.specs.Props.{props};
ghost use Rattle.typing.specs.Walk.{bound_verdict, value_verdict, type_verdict};

use book::admitted::AdmittedBook;
use book::kinds::{Kind, Mode};
use book::read::Node;
use book::walks::Siblings;
use environment::scope::BookScope;
use refusals::{Answer, Refusal, Verdict};

// A function's modes: at most one, and oneway without results.
fn check_modes(value: u32, kids: usize) -> Verdict
    ensures { result ≡ value_verdict value kids }
{
    let modes = value / Node::HALF;
    let first = modes % Mode::BASE;
    if first == Mode::None as u32 {
        return Ok(());
    }
    if modes / Mode::BASE % Mode::BASE != Mode::None as u32 {
        return Err(Refusal::Modes);
    }
    if first == Mode::Oneway as u32 && ((value % Node::HALF) as usize) < kids {
        return Err(Refusal::Oneway);
    }
    Ok(())
}

// What a walk reads: the nodes of a book beside its table of roots, and the table of alias ends. While the bodies of definitions are walked there
// is none of alias ends yet, and no method is tested for being a function.
#[derive(Clone, Copy)]
pub(crate) struct Walk<'b, 't> {
    pub(crate) env: BookScope<'b, 't>,
    pub(crate) ends: Option<&'t [u32]>,
    ghost ended: { IfSome ends (λ e. EndNodes e.now env.scope.nodes) } by { Prim.hlevel props },
}

impl<'b, 't> Walk<'b, 't> {
    ghost use Rattle.typing.specs.Types.{ends_of, Reads, Under, TreesIn, so_many};

    // Over a book, beside tables of its definitions.
    pub(crate) fn new(
        book: AdmittedBook<'b>,
        roots: &'t [u16],
        ends: Option<&'t [u32]>,
    ) -> Walk<'b, 't>
        requires bound { Roots roots.now book.contents.nodes }
        requires ended { IfSome ends (λ e. EndNodes e.now book.contents.nodes) }
        ensures { Reads book.entry.bytes.now book.entry.contents roots.entry.now ends.entry result }
    {
        Walk {
            env: BookScope::of(book, roots),
            ends,
        }
    }

    // A name has to have a definition.
    #[tactic(auto, unfolding(crate::specs::Walk::bound_verdict))]
    fn check_var(&self, v: u32) -> Verdict
        requires { v < self.now.env.scope.names }
        ensures { result ≡ bound_verdict v (get_or self.now.env.scope.roots.now v 65535) }
    {
        environment::root_of(self.env.scope.roots, v as usize)
            .map(|_| ())
            .ok_or(Refusal::Unbound(v as u16))
    }

    // Whether a method may stand.
    fn method_fits(&self, n: usize) -> bool
        requires { n < self.now.env.scope.nodes }
        ensures { result ≡ (is_none self.now.ends || end_is 23 self.now.env.scope.rows.now (ends_of self.now.ends) n) }
    {
        self.ends.is_none_or(|ends| environment::as_func(self.env.scope.rows, ends, n).is_ok())
    }

    // The type at node n. Inlined, so that a level of nested types takes one frame of the stack.
    #[cycle(types)]
    #[inline(always)]
    pub(crate) fn check_type(&self, n: usize) -> Verdict
        requires { n < self.now.env.scope.nodes }
        ensures { Under self.now (λ pre ds. result ≡ type_verdict pre ds self.now.env.scope.rows.now n) }
    {
        let t = Node::at(self.env.scope.rows, n);
        if t.kind < Kind::Var as u8 {
            return Ok(());
        }
        if t.kind == Kind::Var as u8 {
            return self.check_var(t.value);
        }
        if t.kind == Kind::Class as u8 {
            return Err(Refusal::Class);
        }
        let kids = self.check_types(t.kind == Kind::Service as u8, n + 1, n + t.size)?;
        if t.kind == Kind::Func as u8 {
            return check_modes(t.value, kids);
        }
        Ok(())
    }

    // The types from node `from` up to node `until`: how many there are. They may be a service's `methods`, each of which is tested right after its
    // own type, so that the first refusal is told: one function as in the definition, `check_forest`.
    // `from` and `until` are no Siblings, which would hold one of the three facts of `TreesIn`: methods have to fit besides.
    #[cycle(types)]
    pub(crate) fn check_types(&self, methods: bool, from: usize, until: usize) -> Answer
        requires { TreesIn self.now methods from until }
        ensures { Under self.now (λ pre ds.
            result ≡ so_many (check_forest pre (not pre && methods) ds (siblings self.now.env.scope.rows.now from until)) (breadth (siblings self.now.env.scope.rows.now from until))) }
    {
        // Counted beside the walk: the closure of a `try_fold` would call `check_type`, and so need clauses of its own, as in `services_fit`.
        let mut kids: usize = 0;
        for (n, t) in Siblings::new(self.env.scope.rows, from, until) {
            self.check_type(n)?;
            if methods && !self.method_fits(n) {
                return Err(Refusal::MethodNoFunction(t.label as u16));
            }
            kids += 1;
        }
        Ok(kids)
    }

    // Whether each method of each service in the trees from node `from` up to node `until`, which may be `methods`, is a function:
    // one function as in the definition, `methods_fit`.
    // `from` and `until` are no Siblings here either: that the trees are the book's own is asked besides. A loop, since the closure of an `all` would
    // call this function again, and so would need clauses of its own in the source, which are longer than the loop.
    pub(crate) fn services_fit(&self, methods: bool, from: usize, until: usize) -> bool
        requires { TreesIn self.now false from until }
        ensures { IsSome self.now.ends → Under self.now (λ pre ds. result ≡ methods_fit ds methods (siblings self.now.env.scope.rows.now from until)) }
    {
        for (n, t) in Siblings::new(self.env.scope.rows, from, until) {
            if methods && !self.method_fits(n) {
                return false;
            }
            if !self.services_fit(t.kind == Kind::Service as u8, n + 1, n + t.size) {
                return false;
            }
        }
        true
    }
}
