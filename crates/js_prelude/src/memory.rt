//! Arrays, structs and slices, by the description of their type. Go specification, "Comparison
//! operators", "Slice expressions", "Appending to and copying slices".

/// Functions and variables, in order.
pub const MEMORY: [&'static str; 5] = [
    // Stores `$n` elements of `$s` from `$j` on in `$t` from `$i` on, deep, and gives `$t`; a fresh array
    // where `$t` is null. `$d` describes the struct or array.
    "
function $copy($t,$i,$s,$j,$n,$d){
 var $k=0;
 var $e=$d;
 if($d[0]===12){
  $d=$d[1];
 }
 if($t===null){
  $t=[];
  while($k<$n){
   $e=$d[$d[0]===10?$j+$k+1:1];
   $t.push($e[0]<10?$s[$j+$k]:$copy(null,0,$s[$j+$k],0,$s[$j+$k].length,$e));
   $k=$k+1;
  }
  return $t;
 }
 if($t===$s&&$i>$j){
  $e=$d[1];
  $k=$n;
  while($k>0){
   $k=$k-1;
   if($e[0]<10){
    $t[$i+$k]=$s[$j+$k];
   }else{
    $copy($t[$i+$k],0,$s[$j+$k],0,$s[$j+$k].length,$e);
   }
  }
  return $t;
 }
 while($k<$n){
  $e=$d[$d[0]===10?$j+$k+1:1];
  if($e[0]<10){
   $t[$i+$k]=$s[$j+$k];
  }else{
   $copy($t[$i+$k],0,$s[$j+$k],0,$s[$j+$k].length,$e);
  }
  $k=$k+1;
 }
 return $t;
}",
    // An array of `$n` zero elements.
    "
function $zero($n,$v,$d){
 var $t=[];
 var $i=0;
 while($i<$n){
  $t.push($d[0]<10?$v:$copy(null,0,$v,0,$v.length,$d));
  $i=$i+1;
 }
 return $t;
}",
    // Whether two values are equal.
    "
function $same($a,$b,$d){
 var $k=$d[0];
 var $i=0;
 if($k===0||$k===12){
  return true;
 }
 if($k<5){
  return $a===$b;
 }
 if($k<10){
  if($a===null||$b===null){
   return $a===$b;
  }
  if($k<8){
   return $a[0]===$b[0]&&$a[1]===$b[1];
  }
  if($a[0]!==$b[0]){
   return false;
  }
  if(!$a[0][2]){
   $panic($p8);
  }
  return $same($a[1],$b[1],$a[0][0]);
 }
 while($i<$a.length){
  if(!$same($a[$i],$b[$i],$d[$k===10?$i+1:1])){
   return false;
  }
  $i=$i+1;
 }
 return true;
}",
    // A slice of a slice; `$h` and `$m` are null where they are not given.
    "
function $slice($s,$l,$h,$m){
 var $c=$s===null?0:$s[3];
 if($m===null){
  $m=$c;
 }
 if($h===null){
  $h=$s===null?0:$s[2];
 }
 if($l<0||$h<$l||$m<$h||$c<$m){
  $panic($p4);
 }
 return $s===null?null:[$s[0],$s[1]+$l,$h-$l,$m-$l];
}",
    // A slice with the elements of another one at its end; `$z` is the zero element.
    "
function $append($s,$x,$d,$z){
 var $n=0;
 var $c=0;
 var $t=[];
 if($x===null||$x[2]===0){
  return $s;
 }
 if($s===null){
  $s=[$t,0,0,0];
 }
 $n=$s[2]+$x[2];
 if($n<=$s[3]){
  $copy($s[0],$s[1]+$s[2],$x[0],$x[1],$x[2],[11,$d]);
  return [$s[0],$s[1],$n,$s[3]];
 }
 if($n>67108864){
  $panic($p6);
 }
 $c=2*$s[3];
 if($c<$n){
  $c=$n;
 }
 if($c>67108864){
  $c=67108864;
 }
 $t=$copy(null,0,$s[0],$s[1],$s[2],[11,$d]);
 while($t.length<$c){
  $t.push($d[0]<10?$z:$copy(null,0,$z,0,$z.length,$d));
 }
 $copy($t,$s[2],$x[0],$x[1],$x[2],[11,$d]);
 return [$t,0,$n,$c];
}",
];
