// What setting a kernel accepts and refuses, by example.
use crate::shape::Kernel;
use crate::tables::{Published, tap};
use crate::tap::{KernelFault, Tap};
use std::test::Fail;

// Whether the kernel has this divisor, number of taps and sum of weights.
fn has(k: &Kernel, divisor: u32, count: usize, weight: u32) -> bool {
    k.divisor() == divisor && k.taps().len() == count && k.weight() == weight
}

// What a new kernel answers when it is set so. Where it refuses, it is still floyd.
fn answer(divisor: u32, taps: &[Tap]) -> Result<(), KernelFault> {
    let mut k = Kernel::new();
    let r = k.set(divisor, taps);
    if r.is_err() && !has(&k, 16, 4, 16) {
        return Ok(());
    }
    r
}

#[test]
fn published_kernels(rt: HostRuntime) {
    assert!(rt; has(&Kernel::new(), 16, 4, 16));
    assert!(rt; has(&Kernel::published(Published::Floyd), 16, 4, 16));
    assert!(rt; has(&Kernel::published(Published::Jarvis), 48, 12, 48));
    assert!(rt; has(&Kernel::published(Published::Sierra3), 32, 10, 32));
    assert!(rt; has(&Kernel::published(Published::Sierra2), 16, 7, 16));
    assert!(rt; has(&Kernel::published(Published::Sierra1), 4, 3, 4));
    assert!(rt; has(&Kernel::published(Published::Atkinson), 8, 6, 6));
}

#[test]
fn made_by_traits(rt: HostRuntime) {
    assert!(rt; has(&Kernel::default(), 16, 4, 16));
    assert!(rt; has(&Kernel::from(Published::Sierra1), 4, 3, 4));
}

#[test]
fn accepts(rt: HostRuntime) {
    let mut k = Kernel::new();
    assert_eq!(rt; k.set(16, &[tap!(0, 1, 8), tap!(1, 0, 8)]), Ok(()));
    assert!(rt; has(&k, 16, 2, 16));
    assert_eq!(rt;
        answer(
            256,
            &[tap!(0, 1, 1), tap!(0, 2, 1), tap!(1, -2, 1), tap!(2, 2, 1)],
        ),
        Ok(())
    );
}

#[test]
fn refuses_divisor_count_and_sum(rt: HostRuntime) {
    assert_eq!(rt; answer(0, &[tap!(0, 1, 1)]), Err(KernelFault::Divisor));
    assert_eq!(rt; answer(257, &[]), Err(KernelFault::Divisor));
    assert_eq!(rt; answer(1, &[]), Err(KernelFault::Count));
    assert_eq!(rt; answer(256, &[tap!(0, 1, 1); 13]), Err(KernelFault::Count));
    assert_eq!(rt;
        answer(16, &[tap!(0, 1, 8), tap!(1, 0, 9)]),
        Err(KernelFault::Sum)
    );
    assert_eq!(rt;
        answer(16, &[tap!(0, 1, 4294967295), tap!(1, 0, 4294967295)]),
        Err(KernelFault::Sum)
    );
}

#[test]
fn refuses_taps(rt: HostRuntime) {
    assert_eq!(rt; answer(16, &[tap!(0, 0, 1)]), Err(KernelFault::Tap(0)));
    assert_eq!(rt; answer(16, &[tap!(0, -1, 1)]), Err(KernelFault::Tap(0)));
    assert_eq!(rt; answer(16, &[tap!(0, 3, 1)]), Err(KernelFault::Tap(0)));
    assert_eq!(rt;
        answer(16, &[tap!(0, 1, 1), tap!(1, -3, 1)]),
        Err(KernelFault::Tap(1))
    );
    assert_eq!(rt;
        answer(16, &[tap!(0, 1, 1), tap!(3, 0, 1)]),
        Err(KernelFault::Tap(1))
    );
    assert_eq!(rt;
        answer(16, &[tap!(0, 1, 1), tap!(1, 0, 0)]),
        Err(KernelFault::Tap(1))
    );
    assert_eq!(rt;
        answer(16, &[tap!(0, 1, 99), tap!(0, 1, 1)]),
        Err(KernelFault::Tap(1))
    );
    assert_eq!(rt;
        answer(16, &[tap!(1, 0, 1), tap!(0, 1, 1)]),
        Err(KernelFault::Tap(1))
    );
}

#[test]
fn faults_have_numbers_and_words(rt: HostRuntime) -> Result<(), Fail> {
    assert_eq!(rt; KernelFault::Divisor.number(), 11);
    assert_eq!(rt; KernelFault::Count.number(), 12);
    assert_eq!(rt; KernelFault::Tap(3).number(), 13);
    assert_eq!(rt; KernelFault::Sum.number(), 14);
    let text = KernelFault::Tap(3).to_string(rt.alloc())?;
    assert_eq!(rt; text.as_str(), "tap 3 breaks reach, order or weight");
    Ok(())
}
