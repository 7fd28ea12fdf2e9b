//! Tasks as tuples, and back.

ghost use Rattle.std.specs.Prelude.{◌≡◌, ◌⊎◌, ◌++◌, ◌∷◌, [], ℕ, List, Ok, Err, Some, None, option_map, MatchOption, IfOk, IfErr, OnOk};
ghost use Rattle.tuple_keys.specs.Elements.{IsSmall};
ghost use Rattle.tuple_keys.specs.declared.element.Element.TheVariants.{Bytes};
ghost use Rattle.task_kinds.specs.declared.fault.KindFault.TheVariants.{NoMemory};
ghost use Rattle.task_kinds.specs.Tasks.{SeenTask, IsTask};
ghost use Rattle.task_kinds.specs.Tuples.{number, elements_of, tuple_of, number_at, bytes_at, range_in, waiter_at, piece_at, snapshot_at, span_at, file_at, range_at, params_at, job_at, rest_of, kind_of, task_of};

use crate::{Kind, KindFault, Params, Shape, Task};
use fb_bytes::{Blob, KeyRange};
use std::alloc::{AllocError, Global};
use tuple_keys::{Element, Tuple};

fn number(n: u64) -> Element
    ensures same { result ≡ number n }
    ensures small { IsSmall result }
{
    Element::Int(i128::from(n))
}

fn put_range(tuple: &mut Tuple, range: &KeyRange) -> Result<(), AllocError>
    ensures { OnOk result
        (tuple.new ≡ tuple.old ++ Bytes range.now.begin ∷ Bytes range.now.end ∷ []) }
{
    tuple.push(Element::Bytes(range.begin.copy()?))?;
    tuple.push(Element::Bytes(range.end.copy()?))
}

fn put_waiter(tuple: &mut Tuple, future: u64, block: u64) -> Result<(), AllocError>
    ensures { OnOk result (tuple.new ≡ tuple.old ++ number future ∷ number block ∷ []) }
{
    tuple.push(number(future))?;
    tuple.push(number(block))
}

fn put_params(tuple: &mut Tuple, params: &Params) -> Result<(), AllocError>
    ensures { OnOk result (tuple.new ≡ tuple.old ++ elements_of params.now) }
{
    match params {
        Params::Nothing => Ok(()),
        Params::Piece {
            snapshot,
            range,
            future,
            block,
        } => {
            tuple.push(number(*snapshot))?;
            put_range(tuple, range)?;
            put_waiter(tuple, *future, *block)
        }
        Params::Snapshot { snapshot } => tuple.push(number(*snapshot)),
        Params::Span {
            begin,
            end,
            future,
            block,
        } => {
            tuple.push(number(*begin))?;
            tuple.push(number(*end))?;
            put_waiter(tuple, *future, *block)
        }
        Params::File {
            place,
            future,
            block,
        } => {
            tuple.push(number(*place))?;
            put_waiter(tuple, *future, *block)
        }
        Params::Range {
            range,
            future,
            block,
        } => {
            put_range(tuple, range)?;
            put_waiter(tuple, *future, *block)
        }
    }
}

/// The one tuple of the task: its kind's code, its job and its parameters.
pub fn to_tuple(alloc: Global, task: &Task) -> Result<Tuple, AllocError>
    ensures { IfOk result (λ tuple. tuple ≡ tuple_of task.now) }
{
    let mut tuple = Tuple::new(alloc);
    tuple.push(number(task.kind.code()))?;
    tuple.push(number(task.job))?;
    put_params(&mut tuple, &task.params)?;
    Ok(tuple)
}

fn number_of(elements: &[Element]) -> Option<(u64, &[Element])>
    ensures { MatchOption result (number_at elements.now ≡ None)
        (λ x. number_at elements.now ≡ Some (x.0, x.1.now)) }
{
    match elements {
        [Element::Int(n), rest @ ..] if 0 <= *n && *n < 1 << 63 => Some((*n as u64, rest)),
        _ => None,
    }
}

fn bytes_of(elements: &[Element]) -> Option<(&Blob, &[Element])>
    ensures { MatchOption result (bytes_at elements.now ≡ None)
        (λ x. bytes_at elements.now ≡ Some (x.0.now, x.1.now)) }
{
    match elements {
        [Element::Bytes(bytes), rest @ ..] => Some((bytes, rest)),
        _ => None,
    }
}

// The ends of a range, and what stands behind them.
fn ends_of(elements: &[Element]) -> Option<(&Blob, &Blob, &[Element])>
    ensures { MatchOption result (range_in elements.now ≡ None)
        (λ x. range_in elements.now ≡ Some (record { begin = x.0.now; end = x.1.now }, x.2.now)) }
{
    let (begin, rest) = bytes_of(elements)?;
    let (end, rest) = bytes_of(rest)?;
    Some((begin, end, rest))
}

// A future and a block, and nothing behind them.
fn waiter_of(elements: &[Element]) -> Option<(u64, u64)>
    ensures { result ≡ waiter_at elements.now }
{
    let (future, rest) = number_of(elements)?;
    let (block, rest) = number_of(rest)?;
    if rest.is_empty() {
        Some((future, block))
    } else {
        None
    }
}

fn copied(begin: &Blob, end: &Blob) -> Result<KeyRange, AllocError>
    ensures { IfOk result (λ range. range ≡ record { begin = begin.now; end = end.now }) }
{
    let begin = begin.copy()?;
    let end = end.copy()?;
    Ok(KeyRange { begin, end })
}

fn piece_of(elements: &[Element]) -> Result<Option<Params>, AllocError>
    ensures { IfOk result (λ found. found ≡ piece_at elements.now) }
{
    let Some((snapshot, rest)) = number_of(elements) else {
        return Ok(None);
    };
    let Some((begin, end, rest)) = ends_of(rest) else {
        return Ok(None);
    };
    let Some((future, block)) = waiter_of(rest) else {
        return Ok(None);
    };
    let range = copied(begin, end)?;
    Ok(Some(Params::Piece {
        snapshot,
        range,
        future,
        block,
    }))
}

fn snapshot_of(elements: &[Element]) -> Option<Params>
    ensures { result ≡ snapshot_at elements.now }
{
    let (snapshot, rest) = number_of(elements)?;
    if rest.is_empty() {
        Some(Params::Snapshot { snapshot })
    } else {
        None
    }
}

fn span_of(elements: &[Element]) -> Option<Params>
    ensures { result ≡ span_at elements.now }
{
    let (begin, rest) = number_of(elements)?;
    let (end, rest) = number_of(rest)?;
    let (future, block) = waiter_of(rest)?;
    Some(Params::Span {
        begin,
        end,
        future,
        block,
    })
}

fn file_of(elements: &[Element]) -> Option<Params>
    ensures { result ≡ file_at elements.now }
{
    let (place, rest) = number_of(elements)?;
    let (future, block) = waiter_of(rest)?;
    Some(Params::File {
        place,
        future,
        block,
    })
}

fn range_of(elements: &[Element]) -> Result<Option<Params>, AllocError>
    ensures { IfOk result (λ found. found ≡ range_at elements.now) }
{
    let Some((begin, end, rest)) = ends_of(elements) else {
        return Ok(None);
    };
    let Some((future, block)) = waiter_of(rest) else {
        return Ok(None);
    };
    let range = copied(begin, end)?;
    Ok(Some(Params::Range {
        range,
        future,
        block,
    }))
}

fn params_of(shape: Shape, elements: &[Element]) -> Result<Option<Params>, AllocError>
    ensures { IfOk result (λ found. found ≡ params_at shape elements.now) }
{
    match shape {
        Shape::Nothing => {
            if elements.is_empty() {
                Ok(Some(Params::Nothing))
            } else {
                Ok(None)
            }
        }
        Shape::Piece => piece_of(elements),
        Shape::Snapshot => Ok(snapshot_of(elements)),
        Shape::Span => Ok(span_of(elements)),
        Shape::File => Ok(file_of(elements)),
        Shape::Range => range_of(elements),
    }
}

fn job_of(elements: &[Element]) -> Option<(u64, &[Element])>
    ensures { MatchOption result (job_at elements.now ≡ None)
        (λ x. job_at elements.now ≡ Some (x.0, x.1.now)) }
{
    let (job, rest) = number_of(elements)?;
    if 1 <= job { Some((job, rest)) } else { None }
}

fn rest_of(kind: Kind, elements: &[Element]) -> Result<Option<Task>, AllocError>
    ensures { IfOk result (λ found. found ≡ rest_of kind elements.now) }
{
    let Some((job, rest)) = job_of(elements) else {
        return Ok(None);
    };
    match params_of(kind.shape(), rest)? {
        Some(params) => Ok(Some(Task { job, kind, params })),
        None => Ok(None),
    }
}

fn kind_of(code: i128) -> Option<Kind>
    ensures { result ≡ kind_of code }
{
    if 0 <= code && code < 1 << 63 {
        Kind::from_code(code as u64)
    } else {
        None
    }
}

fn task_in(tuple: &Tuple) -> Result<Task, KindFault>
    ensures ok { IfOk result (λ task. task_of tuple.now ≡ Ok task) }
    ensures err { IfErr result (λ fault. (fault ≡ NoMemory) ⊎ (task_of tuple.now ≡ Err fault)) }
{
    let [Element::Int(code), rest @ ..] = tuple.as_slice() else {
        return Err(KindFault::Kind { code: 0 });
    };
    let Some(kind) = kind_of(*code) else {
        return Err(KindFault::Kind { code: *code });
    };
    match rest_of(kind, rest)? {
        Some(task) => Ok(task),
        None => Err(KindFault::Params { kind }),
    }
}

/// The task of the tuple.
pub fn from_tuple(tuple: &Tuple) -> Result<Task, KindFault>
    // What is read is the task's one tuple.
    ensures found { IfOk result (λ task. IsTask task × (tuple.now ≡ tuple_of task)) }
    // The tuple of a task is read, unless memory runs out.
    ensures only { (task : SeenTask) → IsTask task → tuple.now ≡ tuple_of task → (result ≡ Ok task)
        ⊎ (result ≡ Err NoMemory) }
    // Which fault it is.
    ensures ok { IfOk result (λ task. task_of tuple.now ≡ Ok task) }
    ensures err { IfErr result (λ fault. (fault ≡ NoMemory) ⊎ (task_of tuple.now ≡ Err fault)) }
{
    task_in(tuple)
}
