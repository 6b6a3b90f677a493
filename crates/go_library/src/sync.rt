//! The package `sync`.

/// The text of the package `sync`.
pub const SYNC: &str = r#"// Package sync lets goroutines wait for one another.
// Its types share their gates with their copies.
package sync

import "internal/host"

// A Mutex is held by at most one goroutine. The gate is 1 while it is held.
type Mutex struct {
    gate *int
}

// Lock waits until nobody holds the mutex, and takes it.
func (m *Mutex) Lock() { host.GateTake(host.GateMake(&m.gate)) }

// Unlock gives the mutex free.
func (m *Mutex) Unlock() {
    if host.GateAdd(host.GateMake(&m.gate), -1) < 0 {
        host.Fatal("sync: unlock of unlocked mutex")
    }
}

// A WaitGroup counts what is still to be done, in its gate.
type WaitGroup struct {
    gate *int
}

// Add adds to the count; at 0 all that wait go on.
func (g *WaitGroup) Add(delta int) {
    if host.GateAdd(host.GateMake(&g.gate), delta) < 0 {
        panic("sync: negative WaitGroup counter")
    }
}

// Done takes 1 from the count.
func (g *WaitGroup) Done() { g.Add(-1) }

// Wait waits until the count is 0.
func (g *WaitGroup) Wait() { host.GateAwait(host.GateMake(&g.gate)) }

// A Once does one thing once.
type Once struct {
    mutex Mutex
    done  bool
}

// Do calls the function where no call of Do has done so yet. Others wait until it has ended, be it by a panic.
func (o *Once) Do(f func()) {
    o.mutex.Lock()
    defer o.mutex.Unlock()
    if !o.done {
        defer o.end()
        f()
    }
}

func (o *Once) end() { o.done = true }
"#;
