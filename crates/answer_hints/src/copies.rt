//! Equal copies of paths.
ghost use Rattle.std.specs.Prelude.{◌≡◌, IfOk};
ghost use Rattle.path_ast.specs.Terms.{path_term, test_term};

use path_ast::{Path, Test};
use std::alloc::{AllocError, Global};

#[cycle(copies)]
fn copy_path(alloc: Global, path: &Path) -> Result<Path, AllocError>
    ensures { IfOk result (λ copy. path_term copy ≡ path_term path.now) }
{
    match path {
        Path::Test(test) => Ok(Path::Test(boxed_test(alloc, test)?)),
        Path::F => Ok(Path::F),
        Path::B => Ok(Path::B),
        Path::N => Ok(Path::N),
        Path::P => Ok(Path::P),
        Path::Seq(a, b) => Ok(Path::Seq(boxed_copy(alloc, a)?, boxed_copy(alloc, b)?)),
        Path::Alt(a, b) => Ok(Path::Alt(boxed_copy(alloc, a)?, boxed_copy(alloc, b)?)),
        Path::Repeat { body, least, most } => Ok(Path::Repeat {
            body: boxed_copy(alloc, body)?,
            least: *least,
            most: *most,
        }),
    }
}

/// An equal path, in memory of its own.
#[cycle(copies)]
pub(crate) fn boxed_copy(alloc: Global, path: &Path) -> Result<Box<Path>, AllocError>
    ensures { IfOk result (λ copy. path_term copy.value ≡ path_term path.now) }
{
    Ok(Box::new(alloc, copy_path(alloc, path)?)?)
}

#[cycle(copies)]
fn copy_test(alloc: Global, test: &Test) -> Result<Test, AllocError>
    ensures { IfOk result (λ copy. test_term copy ≡ test_term test.now) }
{
    match test {
        Test::Leaf(leaf) => Ok(Test::Leaf(*leaf)),
        Test::Cond(path) => Ok(Test::Cond(boxed_copy(alloc, path)?)),
        Test::And(a, b) => Ok(Test::And(boxed_test(alloc, a)?, boxed_test(alloc, b)?)),
        Test::Or(a, b) => Ok(Test::Or(boxed_test(alloc, a)?, boxed_test(alloc, b)?)),
        Test::Not(a) => Ok(Test::Not(boxed_test(alloc, a)?)),
    }
}

#[cycle(copies)]
fn boxed_test(alloc: Global, test: &Test) -> Result<Box<Test>, AllocError>
    ensures { IfOk result (λ copy. test_term copy.value ≡ test_term test.now) }
{
    Ok(Box::new(alloc, copy_test(alloc, test)?)?)
}
