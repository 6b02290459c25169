//! Samples, and a sample's job with another question: more elements than all sets could be listed for.
use crate::running::gives;
use mm_field::Field;
use mm_sample::sample_text;
use std::alloc::Global;
use std::test::Fail;

/// The words of a sample, and what is written. The last lines of each were made by a plain greedy algorithm.
const SAMPLES: [(&str, &str); 3] = [
    (
        "sample 2 2 1",
        "answers 3\nfirst least 171 2\nlast least 157 2\n",
    ),
    (
        "sample 2 20 7",
        "answers 21\nfirst least 175 9\nlast least 315 8\n",
    ),
    (
        "sample 2 200 7",
        "answers 201\nfirst least 4182 89\nlast least 4067 86\n",
    ),
];

#[test]
fn samples_are_answered(rt: HostRuntime) -> Result<(), Fail> {
    let alloc = rt.alloc();
    for (words, output) in SAMPLES {
        assert!(rt; gives(alloc, words, b"", 1, output, 0)?, "{words}");
    }
    Ok(())
}

/// A sample's job, with another question.
fn asked(alloc: Global, job: &str, question: &str) -> Result<String, Fail> {
    let mut text = String::new(alloc);
    for line in job.lines() {
        let is_question = line.split(' ').next() == Some("least");
        text.push_str(if is_question { question } else { line })?;
        text.push('\n')?;
    }
    Ok(text)
}

#[test]
fn a_sample_with_a_set_quantifier_is_decided(rt: HostRuntime) -> Result<(), Fail> {
    let alloc = rt.alloc();
    let job = sample_text(alloc, Field::Two, 200, 7)?;
    let job = String::from_utf8(job.bytes().to_vec(alloc)?);
    let job = job.ok().ok_or("a text")?;
    let question = "decide all X (ind(X) implies ind(X))";
    let text = asked(alloc, job.as_str(), question)?;
    let mut output = String::new(alloc);
    for _ in 0..201 {
        output.push_str("true\n")?;
    }
    assert!(rt; gives(alloc, "run", text.as_bytes(), 4096, output.as_str(), 0)?);
    Ok(())
}
