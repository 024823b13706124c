// That no store is lost by a mistake. No clause says so, since none says what files hold. What an image may be written over is
// tried by the case `own-files`.
use st_host::Host;
use st_system_host::{DirHost, Refusal};
use std::fs;
use std::process::Abort;

// Looks at a roots file that isn't there, and makes it; then it is empty.
fn makes<H: Host>(host: &mut H, name: &str) -> bool {
    host.length(name) == Ok(None)
        && host.sync(name) == Ok(())
        && host.cut(name, 0) == Ok(())
        && host.length(name) == Ok(Some(0))
}

// Each call fails, also on another file.
fn refuses<H: Host>(host: &mut H, name: &str) -> bool {
    host.length(name).is_err()
        && host.read_at(name, 0, &mut [0; 4]).is_err()
        && host.write_at(name, 0, b"x").is_err()
        && host.cut(name, 1).is_err()
        && host.sync(name).is_err()
        && host.write_at("hosts_refused", 0, b"x").is_err()
}

#[test]
fn a_store_has_one_host_at_a_time(rt: HostRuntime) {
    let name = "hosts_one_at_a_time.roots";
    let mut host = DirHost::new(rt.clone().expect(&rt, "a handle"));
    let mut other = DirHost::new(rt.clone().expect(&rt, "a handle"));
    assert!(rt; makes(&mut host, name) && refuses(&mut other, name));
    assert_eq!(rt; other.refusal(), Some(Refusal::InUse));
    drop(other);
    assert_eq!(rt; host.length("./hosts_one_at_a_time.roots"), Ok(Some(0)));
    drop(host);
    let mut next = DirHost::new(rt.clone().expect(&rt, "a handle"));
    assert_eq!(rt; next.length(name), Ok(Some(0)));
    fs::remove_file(&rt, name).expect(&rt, "a file");
    assert!(rt; refuses(&mut next, name) && next.refusal() == Some(Refusal::Replaced));
}

#[test]
fn a_store_that_was_absent_is_not_taken_from_its_maker(rt: HostRuntime) {
    let name = "hosts_not_taken.roots";
    let mut late = DirHost::new(rt.clone().expect(&rt, "a handle"));
    assert_eq!(rt; late.length(name), Ok(None));
    let mut maker = DirHost::new(rt.clone().expect(&rt, "a handle"));
    assert!(rt; makes(&mut maker, name));
    drop(maker);
    assert!(rt; refuses(&mut late, name) && late.refusal() == Some(Refusal::Replaced));
    fs::remove_file(&rt, name).expect(&rt, "a file");
}
