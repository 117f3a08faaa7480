// What the calls for programs in other languages promise (specs/Promises.antt), with the laws that
// such a promise determines everything that a call leaves and that it follows from the promise of
// the function behind the call. The calls themselves are in tlopahuexi.

#![tactic(auto)]
