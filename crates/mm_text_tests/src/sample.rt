//! A sample text whole, and the summary of what its job writes.

use mm_base::NoMemory;
use mm_field::Field;
use mm_sample::{sample_text, summary};

/// The sample of two elements over GF(2) that the seed 1 gives.
const SMALLEST: &str = "\
mso 1
field 2
elements e1 e2
row 10
row 01
row 01
op p 2 2 2 0 10/01 10/01
op s 2 2 2 1 100/011 010/001
tree
elem e1 10 87
elem e2 11 84
join s
end
least X ind(X) and all y (y in X or not ind(X|y))
replace e2 0
elem e2 11 8
end
replace e2 0
elem e2 11 70
end
";

#[test]
fn the_smallest_sample(rt: HostRuntime) -> Result<(), NoMemory> {
    let text = sample_text(rt.alloc(), Field::Two, 2, 1)?;
    assert_eq!(rt; text.bytes(), SMALLEST.as_bytes());
    Ok(())
}

#[test]
fn its_summary(rt: HostRuntime) -> Result<(), NoMemory> {
    let text = summary(
        rt.alloc(),
        b"least 171 e1 e2\nleast 95 e1 e2\nleast 157 e1 e2\n",
    )?;
    assert_eq!(rt;
        text.bytes(),
        b"answers 3\nfirst least 171 2\nlast least 157 2\n".as_slice()
    );
    Ok(())
}
