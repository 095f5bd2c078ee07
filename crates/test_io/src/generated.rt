// Generated texts, byte by byte.
use bp_gen::{make_dec, make_lp};
use std::test::Fail;

#[test]
fn one_job_from_seed_0(rt: HostRuntime) -> Result<(), Fail> {
    let text = make_lp(rt.alloc(), 0, 1)?;
    let expected =
        b"Minimize\n obj: 12 x1_1 + 45 x2_1 + 32 x3_1 + 20 x4_1\nSubject To\n job1: x1_1 + x2_1 + x3_1 + x4_1 = 1\n cap1: 7 x1_1 <= 1\n cap2: 18 x2_1 <= 3\n cap3: 25 x3_1 <= 5\n cap4: 16 x4_1 <= 3\nBinaries\n x1_1\n x2_1\n x3_1\n x4_1\nEnd\n";
    assert_eq!(rt; text.as_slice(), expected.as_slice());
    Ok(())
}

#[test]
fn three_jobs_from_the_greatest_seed(rt: HostRuntime) -> Result<(), Fail> {
    let text = make_lp(rt.alloc(), u64::MAX, 3)?;
    let expected =
        b"Minimize\n obj: 24 x1_1 + 13 x1_2 + 23 x1_3 + 37 x2_1 + 33 x2_2 + 13 x2_3 + 12 x3_1 + 13 x3_2 + 32 x3_3 + 25 x4_1 + 24 x4_2 + 23 x4_3\nSubject To\n job1: x1_1 + x2_1 + x3_1 + x4_1 = 1\n job2: x1_2 + x2_2 + x3_2 + x4_2 = 1\n job3: x1_3 + x2_3 + x3_3 + x4_3 = 1\n cap1: 24 x1_1 + 15 x1_2 + 14 x1_3 <= 10\n cap2: 11 x2_1 + 18 x2_2 + 7 x2_3 <= 7\n cap3: 13 x3_1 + 22 x3_2 + 7 x3_3 <= 8\n cap4: 19 x4_1 + 12 x4_2 + 10 x4_3 <= 8\nBinaries\n x1_1 x1_2 x1_3\n x2_1 x2_2 x2_3\n x3_1 x3_2 x3_3\n x4_1 x4_2 x4_3\nEnd\n";
    assert_eq!(rt; text.as_slice(), expected.as_slice());
    Ok(())
}

#[test]
fn decomposition_of_two_jobs(rt: HostRuntime) -> Result<(), Fail> {
    let text = make_dec(rt.alloc(), 2)?;
    let expected =
        b"NBLOCKS 4\nBLOCK 1\ncap1\nBLOCK 2\ncap2\nBLOCK 3\ncap3\nBLOCK 4\ncap4\nMASTERCONSS\njob1\njob2\n";
    assert_eq!(rt; text.as_slice(), expected.as_slice());
    Ok(())
}
