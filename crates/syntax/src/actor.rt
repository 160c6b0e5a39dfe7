// The actor that a book means: `resolve_actor` of syntax/mod.rs, on main and the service imports. It runs after the definitions have passed,
// so that the table of alias ends is there.
ghost use Rattle.std.specs.Prelude.{◌≡◌, List, [], Option, ℕ, ◌+◌, ◌<◌, All, IfSome};
ghost use Rattle.std.proofs.Props.{props};
ghost use Rattle.format.specs.Book.{Definition};
ghost use Rattle.format.specs.Layout.{nodes_part, files_part};
ghost use Rattle.format.specs.Whole.{Within};
ghost use Rattle.book.specs.Reading.{Admitted};
ghost use Rattle.judgement.specs.Check.{hashes_verdict};
ghost use Rattle.environment.specs.Tables.{Roots, EndNodes, Chains, Tabled};
ghost use Rattle.environment.specs.Trees.{AllTrees};
ghost use Rattle.syntax.specs.Files.{Listed, FilesPassed};
ghost use Rattle.syntax.specs.Classes.{tree_of};
ghost use Rattle.syntax.specs.Interfaces.{IsService, methods_in, ActorAs};
ghost use Rattle.syntax.specs.Resolving.{service_at, MergedActorAs, ResolvedAs};

use crate::by_file::ByFile;
use crate::class::top_of;
use crate::files::Files;
use crate::interface::{Actor, Interface};
use book::admitted::AdmittedBook;
use book::kinds::Kind;
use book::read::{Entry, Node};
use environment::End;
use environment::scope::Scope;
use refusals::{Refusal, Verdict};

// ---- Services

// What is found at the end of a chain: a service, or why there is none. In each case it has how many names were crossed: no code reads that yet,
// but each lookup of a service hands it on with what it finds, as the customer asked (docs/requests/03.md).
#[derive(Clone, Copy)]
struct Service {
    found: Result<u16, Refusal>,
    crossed: usize,
}

// A service, where the node is one; `other` of another type.
fn service_at(rows: &[u8], e: usize, other: Refusal) -> Result<u16, Refusal>
    requires { Within rows.now (e + 1) × (e < 4096) }
    ensures { result ≡ service_at rows.now other e }
{
    let t = Node::at(rows, e);
    if t.kind == Kind::Service as u8 {
        Ok(e as u16)
    } else {
        Err(other)
    }
}

// What looks for services: a book, and the table of roots of its `main` definitions, which are as many names as a chain may cross.
#[derive(Clone, Copy)]
struct Resolver<'a, 'b> {
    book: AdmittedBook<'a>,
    roots: &'b [u16],
    main: usize,
    ghost table: { Roots roots.now book.contents.nodes } by { Prim.hlevel props },
}

impl Resolver<'_, '_> {
    ghost use Rattle.syntax.specs.Resolvers.{ServiceFrom, MainServes, MainFrom, ServicesFrom};

    // The service at the end of the chain from a node: `chase_service`.
    fn chase_service(&self, node: usize, other: Refusal) -> Service
        requires { node < self.now.book.contents.nodes }
        ensures { ServiceFrom self.now node other result }
    {
        let scope = Scope::of(self.book, self.roots);
        let chain = scope.alias_end(self.main, node);
        let found = match chain.end {
            End::Unbound(n) => Err(Refusal::Unbound(n)),
            End::Circle => Err(other),
            End::Ends(e) => service_at(scope.rows, e, other),
        };
        Service {
            found,
            crossed: chain.crossed,
        }
    }

    // Main's actor alone as a merged one, of this root: its class's arguments, and the service below its top; neither where there is none.
    fn main_alone(&self, root: Option<usize>) -> Result<Interface, Refusal>
        requires { IfSome root (λ n. n < self.now.book.contents.nodes) }
        ensures { MainFrom self.now root result }
    {
        let Some(top) = top_of(self.book.nodes(), root) else {
            return Ok(Interface {
                actor: Actor::Merged(None),
                ..Interface::none()
            });
        };
        let service = self.chase_service(top.below, Refusal::NoService).found?;
        Ok(Interface {
            actor: Actor::Merged(root),
            from: top.from,
            until: top.until,
            services: ByFile::from(Some(service)),
        })
    }

    // The service of each import in file order (3, 13), behind main's.
    fn import_services(&self, imports: ByFile, main: ByFile) -> Result<ByFile, Refusal>
        requires { Listed (files_part self.now.book.bytes.now) self.now.book.contents.files imports × ((root : Option ℕ) × MainServes self.now root main) }
        ensures { (root : Option ℕ) → MainServes self.now root main → ServicesFrom self.now root imports result }
    {
        let table = self.book.files();
        let mut services = main;
        for f in imports.as_slice() {
            let e = Entry::at(table, *f as usize);
            let other = Refusal::ImportNoService(e.name);
            let service = self.chase_service(e.root as usize, other).found?;
            services.push(service);
        }
        Ok(services)
    }

    // With service imports: main is resolved first (3, 10), then the imports.
    fn merge(&self, files: Files) -> Result<Interface, Refusal>
        requires { FilesPassed self.now.book.bytes.now self.now.book.contents files }
        ensures { (a : Admitted self.now.book.bytes.now self.now.book.contents) → MergedActorAs a self.now.roots.now self.now.main result }
    {
        let main = self.main_alone(files.root)?;
        let services = self.import_services(files.imports, main.services)?;
        Ok(Interface { services, ..main })
    }
}

// ---- The resolved actor

// Without service imports the actor is main's as written: the service at the end of the chain from what stands below its top.
fn written(rows: &[u8], ends: &[u32], root: Option<usize>) -> Interface
    requires { (names nodes : ℕ) × AllTrees rows.now names nodes × EndNodes ends.now nodes × IfSome root (λ n. n < nodes) ×
        ((ds : List Definition) × Chains rows.now ends.now names ds) }
    ensures { (names nodes : ℕ) (ds : List Definition) → AllTrees rows.now names nodes → EndNodes ends.now nodes → IfSome root (λ n. n < nodes) →
        Chains rows.now ends.now names ds → ActorAs rows.now nodes ds (tree_of rows.now root) result }
{
    let (Some(n), Some(top)) = (root, top_of(rows, root)) else {
        return Interface::none();
    };
    let service = environment::as_service(rows, ends, top.below);
    Interface {
        actor: Actor::Written(n),
        from: top.from,
        until: top.until,
        services: ByFile::from(service.ok().and_then(|reached| reached.node)),
    }
}

// 14: the methods of a merged actor have different hashes.
fn check_hashes(book: AdmittedBook, services: &[u16]) -> Verdict
    requires { All (IsService (nodes_part book.bytes.now) book.contents.nodes) services.now }
    ensures { (a : Admitted book.entry.bytes.now book.entry.contents) →
        result ≡ hashes_verdict a.book.names [] (methods_in (nodes_part book.entry.bytes.now) services.now) }
{
    let table = book::tables::name_hashes(book);
    crate::hashes::hashes(book.nodes(), &table, services)
}

// The actor of a book whose `main` definitions passed, with their tables. No struct of roots, ends and `main`: without imports ends alone are read,
// with them the other two, and each function here asks of those that it reads.
pub fn resolve_actor(
    book: AdmittedBook,
    files: Files,
    main: usize,
    roots: &[u16],
    ends: &[u32],
) -> Result<Interface, Refusal>
    requires found { FilesPassed book.bytes.now book.contents files }
    requires table { Roots roots.now book.contents.nodes }
    requires ended { EndNodes ends.now book.contents.nodes }
    requires passed { (ds : List Definition) × Tabled (nodes_part book.bytes.now) roots.now main ds × Chains (nodes_part book.bytes.now) ends.now book.contents.names ds }
    ensures { (a : Admitted book.entry.bytes.now book.entry.contents) (ds : List Definition) → Tabled (nodes_part book.entry.bytes.now) roots.now main ds →
        Chains (nodes_part book.entry.bytes.now) ends.now book.entry.contents.names ds → ResolvedAs a ds result }
{
    if files.imports.is_empty() {
        return Ok(written(book.nodes(), ends, files.root));
    }
    let resolver = Resolver { book, roots, main };
    let merged = resolver.merge(files)?;
    check_hashes(book, merged.services.as_slice())?;
    Ok(merged)
}
