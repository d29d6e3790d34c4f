// Answers in words.
use crate::cells::TestCell;
use expr_eval::{EvalStop, ScalarStop};
use rdf_values::{Scalar, Value};
use std::alloc::{AllocError, Global};

// The need of a column, by its name.
fn need_words(alloc: Global, number: u32, cells: &[TestCell<'_>]) -> Result<String, AllocError> {
    match cells.get(number as usize) {
        Some(cell) => format!(in alloc; "need {}", cell.name),
        None => format!(in alloc; "need column {number}"),
    }
}

fn vector_words(alloc: Global, elements: &[i64]) -> Result<String, AllocError> {
    let mut words = String::from_str(alloc, "[")?;
    for (place, element) in elements.iter().enumerate() {
        if place > 0 {
            words.push(' ')?;
        }
        words.push_str(format!(in alloc; "{element}")?.as_str())?;
    }
    words.push(']')?;
    Ok(words)
}

/// The value, the fault or the need of an evaluation.
pub fn value_words(
    alloc: Global,
    answer: Result<Value, EvalStop>,
    cells: &[TestCell<'_>],
) -> Result<String, AllocError> {
    match answer {
        Ok(Value::Int(number)) => format!(in alloc; "{number}"),
        Ok(Value::Bool(truth)) => format!(in alloc; "{truth}"),
        Ok(Value::Vect(elements)) => vector_words(alloc, elements.as_slice()),
        Err(EvalStop::Fault(fault)) => format!(in alloc; "{fault:?}"),
        Err(EvalStop::Need(number)) => need_words(alloc, number, cells),
        Err(EvalStop::Memory) => String::from_str(alloc, "memory"),
    }
}

/// The same of an evaluation without vectors.
pub fn scalar_words(
    alloc: Global,
    answer: Result<Scalar, ScalarStop>,
    cells: &[TestCell<'_>],
) -> Result<String, AllocError> {
    match answer {
        Ok(Scalar::Int(number)) => format!(in alloc; "{number}"),
        Ok(Scalar::Bool(truth)) => format!(in alloc; "{truth}"),
        Err(ScalarStop::Fault(fault)) => format!(in alloc; "{fault:?}"),
        Err(ScalarStop::Need(number)) => need_words(alloc, number, cells),
    }
}
